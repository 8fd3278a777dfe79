// Theorems about cards: which texts are read as what, that what is read keeps the rules, and that what a card says is read back from its text.
ghost use Rattle.std.specs.Prelude.{ℕ, List};
ghost use Rattle.cards.specs.Content.{Content};
ghost use Rattle.cards.specs.Spelling.{Exactly, KeepsRules, ReadBack};

// Bytes are read as a card just where they are not too long, the card keeps the rules, and they spell it.
pub fn cards_are_read_exactly()
    ensures { (bytes : List ℕ) (c : Content) → Exactly bytes c }
{}

// Whatever is read keeps the rules of a bench.
pub fn cards_keep_rules()
    ensures { (bytes : List ℕ) → KeepsRules bytes }
{}

// A card that keeps the rules is read back from its text, where that is not too long for a card.
pub fn spelled_cards_are_read()
    ensures { (c : Content) → ReadBack c }
{}

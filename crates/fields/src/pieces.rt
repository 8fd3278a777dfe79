// The pieces of a text between the bytes `at`, one after another.
ghost use Rattle.std.specs.Prelude.{◌≡◌};
ghost use Rattle.std.specs.Iterator.{YieldsFirstRef, item_count};
ghost use Rattle.fields.specs.Text.{pieces};
ghost use Rattle.fields.specs.Cursor.{left};

// Not the library's `split`: that holds a closure and is not copied, and a record is copied with the pieces that are left.
#[derive(Clone, Copy)]
pub struct Pieces<'a> {
    rest: Option<&'a [u8]>,
    at: u8,
}

impl<'a> Pieces<'a> {
    pub fn new(text: &'a [u8], at: u8) -> Self
        ensures { left result ≡ pieces at text.now }
    {
        Pieces {
            rest: Some(text),
            at,
        }
    }
}

impl<'a> Iterator for Pieces<'a> {
    type Item = &'a [u8];

    ghost next_gives = { YieldsFirstRef left };

    ghost remaining = { item_count left };

    fn next(&mut self) -> Option<&'a [u8]> {
        let text = self.rest?;
        match text.iter().position(|b| *b == self.at) {
            Some(n) => {
                self.rest = Some(&text[n + 1..]);
                Some(&text[..n])
            }
            None => {
                self.rest = None;
                Some(text)
            }
        }
    }
}

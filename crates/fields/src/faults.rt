// What can be wrong with a field, and with a line.
ghost use Rattle.std.specs.Prelude.{◌≡◌};
ghost use Rattle.fields.specs.Lines.{field_number, field_place, line_number, line_place};
ghost use Rattle.fields.specs.declared.faults.LineFault.TheVariants.{InField};

use crate::place::Place;

#[derive(Clone, Copy)]
pub enum FieldFault {
    // A name was to stand here.
    NoName(Place),
    // A number in its bounds was to stand here, or a dash where one may.
    NoNumber(Place),
    // The variable stands before on the line or among the operator's parts of this kind.
    Twice(Place),
}

#[derive(Clone, Copy)]
pub enum LineFault {
    // More than 200 bytes, or one that no card may have.
    Bytes { line: usize },
    // No record's letter in front, or not as many fields as the record has.
    Shape { line: usize },
    // A record before one that it must follow, or after one that it must precede.
    Order { line: usize },
    // One record more than a card, or its operator, may have.
    Many { line: usize },
    // A field that does not hold what is to stand there.
    InField(FieldFault),
}

impl FieldFault {
    // The number of the test that the field failed.
    pub fn number(&self) -> u8
        ensures { result ≡ field_number self.now }
    {
        match self {
            FieldFault::NoName(_) | FieldFault::NoNumber(_) => 6,
            FieldFault::Twice(_) => 7,
        }
    }

    pub fn place(&self) -> Place
        ensures { result ≡ field_place self.now }
    {
        match *self {
            FieldFault::NoName(place) | FieldFault::NoNumber(place) | FieldFault::Twice(place) => {
                place
            }
        }
    }
}

impl LineFault {
    // The number of the test that the line failed.
    pub fn number(&self) -> u8
        ensures { result ≡ line_number self.now }
    {
        match self {
            LineFault::Bytes { .. } => 2,
            LineFault::Shape { .. } => 3,
            LineFault::Order { .. } => 4,
            LineFault::Many { .. } => 5,
            LineFault::InField(e) => e.number(),
        }
    }

    pub fn place(&self) -> Place
        ensures { result ≡ line_place self.now }
    {
        match *self {
            LineFault::Bytes { line }
            | LineFault::Shape { line }
            | LineFault::Order { line }
            | LineFault::Many { line } => Place { line, field: 0 },
            LineFault::InField(e) => e.place(),
        }
    }
}

impl From<FieldFault> for LineFault {
    ghost from_gives = { λ e r. r ≡ InField e };

    fn from(fault: FieldFault) -> LineFault {
        LineFault::InField(fault)
    }
}

// The choices that a call is made with, beside its table.
ghost use Rattle.std.specs.Prelude.{◌≡◌, eqb};
ghost use Rattle.definitions.specs.Requests.Choices.{choices_of};
ghost use Rattle.qptr.specs.Choices.{to_first, strict_lookup_in, choices_in};

// Who receives on a full tie of size and strictness.
#[derive(Clone, Copy, PartialEq, Eq)]
pub enum Ties {
    Second,
    First,
}

impl Ties {
    fn of(bit: u32) -> Ties
        ensures { to_first result ≡ eqb bit 1 }
    {
        if bit == 1 { Ties::First } else { Ties::Second }
    }
}

// What an array contains at its length: an element of size 0, or nothing.
#[derive(Clone, Copy, PartialEq, Eq)]
pub enum Lookup {
    Lenient,
    Strict,
}

impl Lookup {
    fn of(bit: u32) -> Lookup
        ensures { strict_lookup_in result ≡ eqb bit 1 }
    {
        if bit == 1 {
            Lookup::Strict
        } else {
            Lookup::Lenient
        }
    }
}

#[derive(Clone, Copy)]
pub struct Choices {
    pub ties: Ties,
    pub lookup: Lookup,
}

impl Choices {
    // What the source does.
    pub const RUST: Choices = Choices {
        ties: Ties::Second,
        lookup: Lookup::Lenient,
    };

    // A choice for each bit of a number, from the lowest up: ties to the first, the strict lookup. Bits that no choice has are not looked at.
    pub fn of(number: u32) -> Choices
        ensures { choices_in result ≡ choices_of number }
    {
        Choices {
            ties: Ties::of(number % 2),
            lookup: Lookup::of(number / 2 % 2),
        }
    }
}

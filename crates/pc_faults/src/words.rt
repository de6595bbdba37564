//! The words of the faults, by their numbers.
ghost use Rattle.std.specs.Prelude.{◌≡◌, ◌≤◌, ◌+◌, length};
ghost use Rattle.pc_faults.specs.FaultText.{fault_words, side_words};

/// The words of a fault before and after what it names.
#[derive(Clone, Copy)]
pub struct Words {
    pub before: &'static [u8],
    pub after: &'static [u8],
}

impl Words {
    /// Returns the words of the fault with this number. They are empty for a fault whose words go by its detail alone.
    pub fn of(number: u8) -> Words
        ensures before { result.before.now ≡ (fault_words number).before }
        ensures after { result.after.now ≡ (fault_words number).after }
        ensures short { length result.before.now + length result.after.now ≤ 43 }
    {
        match number {
            1 => row(b"more than 67108864 bytes", b""),
            2 => row(b"not UTF-8", b""),
            3 => row(b"first card is not PROJECT", b""),
            4 => row(b"unknown kind", b""),
            7 => row(b"field ", b" has a wrong shape"),
            8 => row(b"field ", b" is over its limit"),
            9 => row(b"code ", b" is repeated"),
            11 => row(b"card after END", b""),
            12 => row(b"no END", b""),
            13 => row(b"unknown event ", b""),
            14 => row(b"unknown item ", b""),
            15 => row(b"unknown account ", b""),
            16 => row(b"unknown activity ", b""),
            17 => row(b"begins and ends at ", b""),
            18 => row(b"estimates out of order", b""),
            19 => row(b"crash above normal", b""),
            20 => row(b"no top item", b""),
            21 => row(b"second top item ", b""),
            22 => row(b"items in a loop: ", b""),
            24 => row(b"activity ", b" enters the start"),
            25 => row(b"activity ", b" leaves the end"),
            27 => row(b"activities in a cycle: ", b""),
            28 => row(b"item ", b" is not a leaf"),
            33 => row(b"more than 4 pieces of ", b""),
            34 => row(b"slope of a piece of ", b" does not rise"),
            35 => row(b"pieces of ", b" leave nothing to its first slope"),
            36 => row(b"bonus above penalty", b""),
            37 => row(b"top item has no child", b""),
            38 => row(b"tasks in a cycle: ", b""),
            39 => row(b"no task", b""),
            41 => row(b"unknown resource ", b""),
            _ => row(b"", b""),
        }
    }
}

/// One row of the table.
fn row(before: &'static [u8], after: &'static [u8]) -> Words
    ensures before { result.before.now ≡ before.now }
    ensures after { result.after.now ≡ after.now }
{
    Words { before, after }
}

/// Returns the words before an event that is loose, by whether an activity enters it.
pub(crate) fn side_words(entered: bool) -> &'static [u8]
    ensures words { result.now ≡ side_words entered }
    ensures short { length result.now ≤ 19 }
{
    if entered {
        b"no activity leaves "
    } else {
        b"no activity enters "
    }
}

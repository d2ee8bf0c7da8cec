//! Lines and columns of a text.

ghost use Rattle.std.specs.Prelude.{◌≡◌, ◌+◌, ◌-◌, ◌^◌, ◌<◌, ◌≤◌, length};
ghost use Rattle.dart_meaning.specs.Place.{reading};
ghost use Rattle.dart_meaning.specs.NumberedForm.{shown_place};
ghost use Rattle.site_list.specs.Rows.{Stands};

use program::SitePlace;

/// A place of a text, with its line and its column.
#[derive(Clone, Copy)]
pub struct Cursor {
    byte: usize,
    line: u32,
    column: u32,
}

impl Cursor {
    /// The begin of a text.
    pub fn new() -> Cursor
        ensures begin { result.byte ≡ 0 }
        ensures stands { (text : _) → Stands text result }
    {
        Cursor {
            byte: 0,
            line: 1,
            column: 1,
        }
    }

    /// Goes on to a byte.
    #[tactic(auto, using(crate::proofs::Lines::line_behind_feed, crate::proofs::Lines::line_behind, crate::proofs::Lines::column_behind_feed, crate::proofs::Lines::column_behind, crate::proofs::Lines::line_most, crate::proofs::Lines::column_most))]
    fn go_on(&mut self, text: &[u8], to: usize)
        requires small { length text.now < 2 ^ 32 - 1 }
        requires stands { Stands text.now self.old }
        requires ahead { self.old.byte ≤ to }
        requires within { to ≤ length text.now }
        ensures there { self.new.byte ≡ to }
        ensures stands { Stands text.now self.new }
    {
        while self.byte < to {
            if text[self.byte] == b'\n' {
                self.line += 1;
                self.column = 1;
            } else {
                self.column += 1;
            }
            self.byte += 1;
        }
    }

    /// The line and the column of a byte. It goes on from where it stands, or begins anew where the byte lies behind.
    #[tactic(auto, using(crate::proofs::Lines::line_end, crate::proofs::Lines::column_end))]
    pub fn place_at(&mut self, text: &[u8], byte: u32) -> SitePlace
        requires small { length text.now < 2 ^ 32 - 1 }
        requires stands { Stands text.now self.old }
        ensures place { result ≡ shown_place text.now (reading byte) }
        ensures stands { Stands text.now self.new }
    {
        let to = text.len().min(byte as usize);
        if to < self.byte {
            *self = Cursor::new();
        }
        self.go_on(text, to);
        SitePlace::At {
            line: self.line,
            column: self.column,
        }
    }
}

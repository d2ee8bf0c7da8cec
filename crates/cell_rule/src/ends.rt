// The beginning of a table, its end, and between them passes that are cut in two and put together.
ghost use Rattle.cell_rule.specs.About.{about_of, Sound};
ghost use Rattle.cell_rule.specs.Stamps.{Settled};
ghost use Rattle.cell_rule.specs.Steps.{SameSeat, Knows, Coherent, EndsAs};
ghost use Rattle.cell_rule.specs.Told.{kept, given, joined, newcomer};
ghost use Rattle.std.specs.Mem.Slots.{slots_items, slots_len, IsFull};
ghost use Rattle.std.specs.Prelude.{◌≡◌, ◌+◌, ◌*◌, ◌<◌, ◌≤◌, [], false, length, IfOk, replicate};

use crate::plays::{Both, Call, Half, Look};
use crate::table::CellWords;
use crate::view::View;
use atomic_table::{Closed, Seat, Table};
use ds_base::NoMemory;
use method_lookup::Linked;
use std::alloc::Global;
use std::marker::Brand;
use std::snapshot::Snapshot;

fn zeros(alloc: Global, count: usize) -> Result<Vec<u64>, NoMemory>
    ensures { IfOk result (λ v. v.items ≡ replicate count 0) }
{
    let words = vec![in alloc; 0; count]?;
    Ok(words)
}

impl CellWords {
    /// The words of a program's sites, all of them unlinked, and the first seat.
    pub fn build(alloc: Global, linked: &Linked) -> Result<(CellWords, Seat<(), View>), NoMemory>
        ensures key { IfOk result (λ r. r.0.table.shared.key.value ≡ linked.now) }
        ensures own { IfOk result (λ r. r.1.table_id ≡ r.0.table.shared.table_id) }
        ensures new { IfOk result (λ r. r.1.me ≡ (newcomer, [])) }
    {
        let words = zeros(alloc, 6 * linked.program().sites.len() + 1)?;
        let about = Snapshot::of(linked);
        let (table, seat) = Table::of_words(alloc, words.as_slice(), &about)?;
        Ok((CellWords { table }, seat))
    }

    /// Cuts a seat in two: the new one has seen the same.
    pub fn split(&self, seat: &mut Seat<(), View>) -> Seat<(), View>
        requires own { seat.old.table_id ≡ self.now.table.shared.table_id }
        requires share { 2 ≤ seat.old.me.0.share }
        ensures same { SameSeat seat.old seat.new }
        ensures kept { seat.new.me.0 ≡ kept seat.old.me.0 }
        ensures new { (result.table_id ≡ seat.old.table_id) × (result.me ≡ (given seat.old.me.0, [])) }
    {
        self.table.shared.split_seat::<Half>(seat)
    }

    /// Loads word 0: all that the seat has seen stands in one history.
    fn look<N: Call>(&self, seat: &mut Seat<(), View>)
        requires own { seat.old.table_id ≡ self.now.table.shared.table_id }
        requires named { N.about ≡ about_of self.now.table.shared.key.value }
        ensures same { SameSeat seat.old seat.new × (seat.new.me ≡ seat.old.me) }
        ensures knows { Knows N.about seat.new.me.0 }
    {
        self.table.shared.load::<Look<N>>(seat, 0);
    }

    /// Puts two seats together, and ends with a load of word 0.
    pub fn join(&self, seat: &mut Seat<(), View>, other: Seat<(), View>)
        requires own { seat.old.table_id ≡ self.now.table.shared.table_id }
        requires other { (other.table_id ≡ self.now.table.shared.table_id) × (other.me.1 ≡ []) }
        requires closed { (seat.old.me.0.pending ≡ false) × (other.me.0.pending ≡ false) }
        requires share { 0 < seat.old.me.0.share }
        ensures same { SameSeat seat.old seat.new }
        ensures both { seat.new.me.0 ≡ joined seat.old.me.0 other.me.0 }
        ensures knows { Knows (about_of self.now.table.shared.key.value) seat.new.me.0 }
        ensures coherent { Coherent seat.new.me.0.seen }
    {
        self.table.shared.join_seat::<Both>(seat, other);
        self.look::<Brand>(seat);
    }

    /// The words at the end, for the seat that has every share.
    pub fn close(self, seat: Seat<(), View>) -> Closed<(), Global>
        requires own { seat.table_id ≡ self.table.shared.table_id }
        requires whole { seat.me.0.share ≡ 65536 }
        requires closed { seat.me.0.pending ≡ false }
        requires settled { Settled seat.me.0.seen }
        ensures words { IsFull result.words × (slots_len result.words ≡ self.table.shared.table_id.words) }
        ensures slots { slots_len result.slots ≡ 0 }
        ensures end { EndsAs (about_of self.table.shared.key.value) seat.me.0 (slots_items result.words) }
    {
        let CellWords { table } = self;
        table.close_with(seat)
    }
}

// What is printed for a load file, put into a text one line behind the other. No call refuses.
ghost use Rattle.std.specs.Prelude.{◌≡◌, ◌≤◌, Ok};
ghost use Rattle.counting.specs.Lists.{join_to, join_in};
ghost use Rattle.load.specs.Load.{most_rows};
ghost use Rattle.load.specs.View.{view_of};
ghost use Rattle.load.specs.Acceptable.{Acceptable};
ghost use Rattle.load.specs.Check.{for_bench};
ghost use Rattle.rules.specs.Slots.{slot_end, last_end};
ghost use Rattle.rules.specs.ScheduleRules.{NamesStep};
ghost use Rattle.lines.specs.Lines.{slot_line, load_lines, printed_by};
ghost use Rattle.lines.specs.inner.Puts.{row_line_by, Puts, Scheduled};

use crate::Text;
use bench::run;
use bound::answers_of;
use load::{Load, MOST_ROWS};
use load_file::read_load;
use rules::{Blame, Slot};

// Gives when a slot ends that names a step of the load.
fn end_of(load: &Load, slot: &Slot) -> u32
    requires { Acceptable (view_of load.now) × NamesStep (view_of load.now) slot.now }
    ensures { result ≡ slot_end (view_of load.now) slot.now }
{
    let row = &load.row[slot.row as usize - 1];
    let step = row.step[slot.step as usize - 1];
    slot.start + step.cost as u32
}

// Gives the end of the last slot, and 0 where there is none.
fn last_end(load: &Load, slots: &[Slot]) -> u32
    requires { Scheduled load.now slots.now }
    ensures { result ≡ last_end (view_of load.now) slots.now }
{
    match slots.last() {
        Some(slot) => end_of(load, slot),
        None => 0,
    }
}

impl Text {
    // Puts the lines of the slots.
    fn put_slots(&mut self, slots: &[Slot])
        ensures { Puts self.old (join_in slot_line slots.now) self.new }
    {
        for slot in slots {
            self.put_slot(slot);
        }
    }

    // Puts the lines of the rows with their margins and, where blames are given, whom they blame.
    fn put_rows(
        &mut self,
        load: &Load,
        margins: &[i32; MOST_ROWS],
        blames: Option<&[Blame; MOST_ROWS]>,
    )
        requires { load.now.rows ≤ most_rows }
        ensures { Puts self.old
            (join_to (row_line_by load.now margins.now blames.entry) load.now.rows) self.new }
    {
        for (i, row) in load.row[..load.rows as usize].iter().enumerate() {
            let blame = blames.map(|blames| blames[i]);
            self.put_row(i as u32 + 1, row, margins[i], blame);
        }
    }

    // Puts the lines of a load with its schedule: the first line, the row lines, the slot lines.
    // The load has as many steps as slots. One call tells bound, verdict, margins and blames.
    fn put_lines(&mut self, load: &Load, slots: &[Slot], blamed: bool)
        requires { Scheduled load.now slots.now }
        ensures { Puts self.old (load_lines blamed load.now) self.new }
    {
        let told = answers_of(*load).unwrap();
        let end = last_end(load, slots);
        let blames = blamed.then_some(&told.blames);
        self.put_first(load.rows, slots.len() as u32, end, told.bound, told.verdict);
        self.put_rows(load, &told.margins, blames);
        self.put_slots(slots);
    }

    // Puts the lines of an accepted load.
    fn put_load(&mut self, load: &Load, blamed: bool)
        requires { for_bench load.now ≡ Ok tt }
        ensures { Puts self.old (load_lines blamed load.now) self.new }
    {
        let ran = run(*load).unwrap();
        let slots = &ran.slots[..ran.count];
        self.put_lines(load, slots, blamed);
    }

    // Puts what is printed for a load file: the lines of its load, with or without whom its rows
    // blame, or the one line of its refusal.
    pub(crate) fn put_printed(&mut self, bytes: &[u8], blamed: bool)
        ensures { Puts self.old (printed_by blamed bytes.now) self.new }
    {
        match read_load(bytes) {
            Ok(load) => self.put_load(&load, blamed),
            Err(refusal) => self.put_refused(refusal),
        }
    }
}

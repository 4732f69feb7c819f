// The lines of the programs, each put behind what the text has. No call refuses.
ghost use Rattle.lines.specs.Lines.{slot_line, refused_line, first_line_of, row_line_of};
ghost use Rattle.lines.specs.inner.Puts.{spaced_all, words_of, Puts};

use crate::Text;
use load::Row;
use refusals::{Refusal, number_of};
use rules::{Blame, Slot};

impl Text {
    // Puts the first line: rows, steps, end of the last step, bound, verdict.
    pub(crate) fn put_first(&mut self, rows: u8, steps: u32, end: u32, bound: u32, verdict: bool)
        ensures { Puts self.old (first_line_of rows steps end bound verdict) self.new }
    {
        self.put(b"load");
        self.put_number(rows as u32);
        self.put_number(steps);
        self.put_number(end);
        self.put_number(bound);
        self.put_verdict(verdict);
        self.put(b"\n");
    }

    // Puts the place and row of a blame, where there is one.
    fn put_blame(&mut self, blame: Option<Blame>)
        ensures { Puts self.old (spaced_all (words_of blame)) self.new }
    {
        if let Some(Blame { place, row }) = blame {
            self.put_number(place as u32);
            self.put_number(row as u32);
        }
    }

    // Puts a row line: row, counted from 1, identifier, box, margin; and where it is asked for, the
    // place and row that the row blames.
    pub(crate) fn put_row(&mut self, number: u32, row: &Row, margin: i32, blame: Option<Blame>)
        ensures { Puts self.old (row_line_of number row.now margin (words_of blame)) self.new }
    {
        self.put(b"row");
        self.put_number(number);
        self.put_number(row.identifier.0);
        self.put_number(row.box_number.0);
        self.put_signed(margin);
        self.put_blame(blame);
        self.put(b"\n");
    }

    // Puts a slot line: start, row, step.
    pub(crate) fn put_slot(&mut self, slot: &Slot)
        ensures { Puts self.old (slot_line slot.now) self.new }
    {
        self.put(b"slot");
        self.put_number(slot.start);
        self.put_number(slot.row as u32);
        self.put_number(slot.step as u32);
        self.put(b"\n");
    }

    // Puts the one line of a refused file: the number.
    pub(crate) fn put_refused(&mut self, refusal: Refusal)
        ensures { Puts self.old (refused_line refusal) self.new }
    {
        self.put(b"refused");
        self.put_number(number_of(refusal));
        self.put(b"\n");
    }
}

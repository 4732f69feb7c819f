// What a board has of a row.
ghost use Rattle.plan.specs.Calls.{PutLook, LookAt};

use crate::{Board, Look};
use load::MOST_ROWS;

// Gives what a board has of row i, and zeros past the last row.
pub fn look_at(board: &Board, i: usize) -> Look
    ensures { LookAt board.now i result }
{
    if MOST_ROWS <= i {
        return Look::default();
    }
    Look {
        finished: board.finished[i],
        steps: board.steps[i],
        opening: board.opening[i],
        cost: board.cost[i],
        release: board.release[i],
        opened: board.opened[i],
        left: board.left[i],
        due: board.due[i],
        wait: board.wait[i],
        stays: board.stays[i],
        rest: board.rest[i],
        limit: board.limit[i],
    }
}

// Puts what is looked up of row i in the row's places of a board, and nothing past the last row.
pub fn put_look(board: &mut Board, i: usize, look: Look)
    ensures { PutLook board.old i look board.new }
{
    if MOST_ROWS <= i {
        return;
    }
    board.finished[i] = look.finished;
    board.steps[i] = look.steps;
    board.opening[i] = look.opening;
    board.cost[i] = look.cost;
    board.release[i] = look.release;
    board.opened[i] = look.opened;
    board.left[i] = look.left;
    board.due[i] = look.due;
    board.wait[i] = look.wait;
    board.stays[i] = look.stays;
    board.rest[i] = look.rest;
    board.limit[i] = look.limit;
}

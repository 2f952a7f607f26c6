// The promise about runs of stations, and its proof.
#![tactic(auto)]

ghost use Rattle.runs.specs.Promise.{Promise};

use books::Book;

// The promise holds for every type of book: no two stations of a group can be found out of step.
pub fn promise_stands<B: Book>()
    ensures { Promise B.Book.held B.Reply }
{}

// Carrying the roll out on a book.
ghost use Rattle.std.specs.Prelude.{◌≡◌};
ghost use Rattle.model.specs.Calls.{post_decided, post_of, posted_book};
ghost use Rattle.model.specs.Meanings.{PostAnswers};
ghost use Rattle.station.specs.Standing.{Does, SameIfRefused, SameMemory, UnchangedIfRefused, state_of_station};

use crate::station::Station;
use books::Book;
use model::Entry;
use wire::Fault;

impl Station<'_> {
    // Carries the next entry of the roll out on the book and answers the book's reply. Refuses if the
    // station is shut, then if all of the roll is posted.
    pub fn post<B: Book>(&mut self, book: &mut B) -> Result<B::Reply, Fault>
        ensures outcome { Does self.old self.new (λ state. post_of B.Book.step state (B.Book.holds book.old)) result }
        ensures answers { PostAnswers B.Book.step (state_of_station self.old) (B.Book.holds book.old) result }
        ensures book { B.Book.holds book.new ≡ posted_book B.Book.step (state_of_station self.old) (B.Book.holds book.old) }
        ensures book_kept { SameIfRefused result book.old book.new }
        ensures table { self.new.table.places.now ≡ self.old.table.places.now }
        ensures roll { self.new.roll.places.now ≡ self.old.roll.places.now }
        ensures refused { UnchangedIfRefused result self.old self.new }
        ensures lent { SameMemory self.old self.new }
    {
        let entry = self.next_entry()?;
        let reply = book.post(&entry.message.order);
        self.posted += 1;
        Ok(reply)
    }

    // The first entry of the roll that is not posted.
    fn next_entry(&self) -> Result<Entry, Fault>
        ensures { result ≡ post_decided (state_of_station self.now) }
    {
        self.open()?;
        self.entry_at(self.posted + 1).ok_or(Fault::NothingToPost)
    }
}

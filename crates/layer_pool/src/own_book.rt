//! The book that the workers of a build share. Its type says of which job it is, so that no worker compares jobs while
//! others wait for the lock.
ghost use Rattle.std.specs.Prelude.{◌≡◌};
ghost use Rattle.build_book.specs.Job.{Job, no_job};

use build_book::{Book, Piece};
use std::alloc::Allocator;
use std::marker::{Brand, PhantomData};

/// A type that stands for the job of a build; the job is a ghost member, and takes no memory. A proof knows
/// nothing of a value inside a lock but its type, so the type of the shared book names the job.
pub(crate) trait OfJob {
    ghost job: { Job };
}

// An `impl` has to name some job. Each call of `build_of` puts its own in this one's place. That of `build` is in
// `proofs/pool/build/Invariants.antt`.
impl OfJob for Brand {
    ghost job = { no_job };
}

/// The book of a build's own job.
#[derive(Drop)]
pub(crate) struct OwnBook<'m, A: Allocator, J: OfJob> {
    book: Book<'m, A>,
    of: PhantomData<J>,
    ghost own: { book.job ≡ J.job },
}

impl<'m, A: Allocator + Copy + Send + Sync, J: OfJob> OwnBook<'m, A, J> {
    /// A book of the build's job.
    pub(crate) fn of(book: Book<'m, A>) -> OwnBook<'m, A, J>
        requires { book.job ≡ J.job }
        ensures { result.book ≡ book.entry }
    {
        OwnBook {
            book,
            of: PhantomData,
        }
    }

    /// Files a piece of the build's job. If the book refuses it, `finish_own` makes its layers.
    pub(crate) fn file(&mut self, piece: Piece<'m, A>)
        requires { piece.job ≡ J.job }
    {
        let _ = self.book.file_own(piece);
    }

    /// Gives the book back, which is of the build's job.
    pub(crate) fn into_book(self) -> Book<'m, A>
        ensures same { result ≡ self.entry.book }
        ensures own { result.job ≡ J.job }
    {
        let OwnBook { book, .. } = self;
        book
    }
}

//! Books: the pieces of a job are filed in them, in any order.
ghost use Rattle.std.specs.Prelude.{◌≡◌, ◌≢◌, ◌+◌, ℕ, IfErr, IfNone, IfOk, IfSome, None, OnErr, OnOk, Some, replicate, slice_get};
ghost use Rattle.build_book.specs.Layer.{IsLawful};
ghost use Rattle.build_book.specs.Piece.{IsPlaceOf};
ghost use Rattle.build_book.specs.Places.{filed_count, total_area};
ghost use Rattle.build_book.specs.Book.{Files, IsFileFault, IsLawfulBook};
ghost use Rattle.build_book.specs.Build.{IsComplete};

use crate::build::Build;
use crate::file_fault::FileFault;
use crate::job::Job;
use crate::layer::Layer;
use crate::piece::Piece;
use crate::places::{
    all_layers, empty_places, filed_count, fill_gaps, first_taken, make_missing, total_area,
};
use std::alloc::{AllocError, Allocator};
use std::marker::Model;

/// A place for each layer of a job. A place is empty, or has the layer that belongs there.
#[derive(Drop)]
pub struct Book<'m, A: Allocator> {
    alloc: A,
    job: &'m Job<A>,
    places: Vec<Option<Layer<A>>, A>,
}

impl<'m, A: Allocator> Model for Book<'m, A> {
    ghost use Rattle.build_book.specs.Book.{Book, IsLawfulBook};

    ghost Value = { Book };

    ghost view = { λ b. record { job = b.job.now; places = b.places.items } };

    ghost invariant = { λ b. IsLawfulBook (record { job = b.job.now; places = b.places.items }) };
}

impl<'m, A: Allocator + Copy + Send + Sync> Book<'m, A> {
    /// A book of the job with every place empty. `Err` only if an allocation failed.
    pub fn open(alloc: A, job: &'m Job<A>) -> Result<Book<'m, A>, AllocError>
        ensures { IfOk result (λ book. book ≡ record { job = job.now; places = replicate job.now.grid.layers None }) }
    {
        let places = empty_places(alloc, job.grid().layers())?;
        Ok(Book { alloc, job, places })
    }

    /// The job.
    pub fn job(&self) -> &'m Job<A>
        ensures { result.now ≡ self.now.job }
    {
        self.job
    }

    /// Files a piece: its layers go into their places.
    ///
    /// # Errors
    /// - `Stranger` if the jobs of piece and book differ in content,
    /// - `Double` if they are the same, but a place of the piece is taken; its `layer` is the least such place.
    ///
    /// On an error the book is unchanged, and the piece comes back. The jobs are compared facet by facet; `file_own` compares
    /// none.
    pub fn file(&mut self, piece: Piece<'m, A>) -> Result<(), (FileFault, Piece<'m, A>)>
        ensures ok { OnOk result (Files self.old piece.entry self.new) }
        ensures fault { IfErr result (λ refusal. IsFileFault self.old piece.entry refusal.0) }
        ensures back { IfErr result (λ refusal. refusal.1 ≡ piece.entry) }
        ensures err { OnErr result (self.new ≡ self.old) }
    {
        if !self.job.same(piece.job()) {
            return Err((FileFault::Stranger, piece));
        }
        self.file_own(piece)
    }

    /// Files a piece as `file` does, but compares no jobs: the piece's job must equal that of the book in content. So the only
    /// error is `Double`.
    pub fn file_own(&mut self, piece: Piece<'m, A>) -> Result<(), (FileFault, Piece<'m, A>)>
        requires own { piece.job ≡ self.old.job }
        ensures ok { OnOk result (Files self.old piece.entry self.new) }
        ensures fault { IfErr result (λ refusal. IsFileFault self.old piece.entry refusal.0) }
        ensures back { IfErr result (λ refusal. refusal.1 ≡ piece.entry) }
        ensures err { OnErr result (self.new ≡ self.old) }
        ensures job { self.new.job ≡ self.old.job }
    {
        if let Some(fault) = self.fault_of(&piece) {
            return Err((fault, piece));
        }
        self.put(piece);
        Ok(())
    }

    /// The fault of filing a piece of the book's own job: the least place of the piece that is taken. `None` if all its
    /// places are free.
    fn fault_of(&self, piece: &Piece<'m, A>) -> Option<FileFault>
        requires { piece.now.job ≡ self.now.job }
        ensures fault { IfSome result (λ fault. IsFileFault self.now piece.now fault) }
        ensures free { IfNone result ((k : ℕ) → IsPlaceOf piece.now k → slice_get self.now.places k ≡ Some None) }
    {
        // wakes the invariant: a piece has exactly the layers of its stripe
        let _layers = piece.layers();
        let (first, end) = self.job.layer_range(piece.stripe());
        let places = self.places.as_slice();
        let taken = first_taken(places, first as usize, end as usize)?;
        let layer = taken as u32;
        Some(FileFault::Double { layer })
    }

    /// Puts the layers of a piece of the book's own job into their places, which are free.
    fn put(&mut self, piece: Piece<'m, A>)
        requires job { piece.job ≡ self.old.job }
        requires free { (k : ℕ) → IsPlaceOf piece k → slice_get self.old.places k ≡ Some None }
        ensures { Files self.old piece.entry self.new }
    {
        // wakes the invariant: a piece has exactly the layers of its stripe
        let _layers = piece.layers();
        let (first, _) = self.job.layer_range(piece.stripe());
        let places = self.places.as_mut_slice();
        fill_gaps(places, first as usize, piece.into_layers());
    }

    /// The layer in place k, or `None` if that place is empty or the grid has no such layer.
    pub fn layer(&self, k: u32) -> Option<&Layer<A>>
        ensures some { IfSome result (λ layer. slice_get self.now.places k ≡ Some (Some layer.now)) }
        ensures none { result ≡ None → (layer : _) → slice_get self.now.places k ≢ Some (Some layer) }
        ensures lawful { IfSome result (λ layer. IsLawful self.now.job k layer.now) }
    {
        self.places.get(k as usize)?.as_ref()
    }

    /// The number of places that are taken. The clause `lawful` holds of every book; it is stated here so that a caller can use
    /// it.
    pub fn filed(&self) -> u32
        ensures count { result ≡ filed_count self.now.places }
        ensures lawful { IsLawfulBook self.now }
    {
        // there are as many places as layers
        self.job.grid().hold_limits();
        filed_count(self.places.as_slice())
    }

    /// The sum of the areas of the layers in taken places, in pixels.
    pub fn total_area(&self) -> u64
        ensures { result ≡ total_area self.now.places }
    {
        // they bound the sum
        self.job.grid().hold_limits();
        total_area(self.places.as_slice())
    }

    /// The complete build of a job. If the book's job is the same in content, its layers are taken over, and the missing ones
    /// are made. Otherwise all are made. `late` is the number of layers made. `Err` only if an allocation failed; the book is
    /// then lost. The jobs are compared facet by facet; `finish_own` compares none.
    pub fn finish(self, job: &'m Job<A>) -> Result<Build<'m, A>, AllocError>
        ensures job { IfOk result (λ build. build.job ≡ job.now) }
        ensures complete { IfOk result (λ build. IsComplete build.job build.layers) }
        ensures late { IfOk result (λ build. self.entry.job ≡ job.now → build.late + filed_count self.entry.places ≡ job.now.grid.layers) }
        ensures all_late { IfOk result (λ build. self.entry.job ≢ job.now → build.late ≡ job.now.grid.layers) }
    {
        if self.job.same(job) {
            self.finish_own()
        } else {
            Book::open(self.alloc, job)?.finish_own()
        }
    }

    /// The complete build of the book's job, as `finish` makes it, but compares no jobs.
    pub fn finish_own(self) -> Result<Build<'m, A>, AllocError>
        ensures job { IfOk result (λ build. build.job ≡ self.entry.job) }
        ensures complete { IfOk result (λ build. IsComplete build.job build.layers) }
        ensures late { IfOk result (λ build. build.late + filed_count self.entry.places ≡ self.entry.job.grid.layers) }
    {
        let Book {
            alloc,
            job,
            mut places,
        } = self;
        let late = make_missing(alloc, job, places.as_mut_slice())?;
        let layers = all_layers(alloc, places)?;
        Ok(Build::of(job, layers, late))
    }
}

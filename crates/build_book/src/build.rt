//! Builds: all layers of a job.
ghost use Rattle.std.specs.Prelude.{◌≡◌, ◌<◌, ◌≤◌, IfNone, IfSome, Some, slice_get};
ghost use Rattle.build_book.specs.Layer.{IsLawful, layers_area};
ghost use Rattle.build_book.specs.Build.{IsComplete};

use crate::job::Job;
use crate::layer::{Layer, layers_area};
use std::alloc::Allocator;
use std::marker::Model;

/// All layers of a job, each lawful for it.
#[derive(Drop)]
pub struct Build<'m, A: Allocator> {
    job: &'m Job<A>,
    layers: Vec<Layer<A>, A>,
    late: u32,
}

impl<'m, A: Allocator> Model for Build<'m, A> {
    ghost use Rattle.build_book.specs.Build.{Build, IsComplete};

    ghost Value = { Build };

    ghost view = { λ b. record { job = b.job.now; layers = b.layers.items; late = b.late } };

    ghost invariant = { λ b. IsComplete b.job.now b.layers.items };
}

impl<'m, A: Allocator> Build<'m, A> {
    /// The build with these parts.
    pub(crate) fn of(job: &'m Job<A>, layers: Vec<Layer<A>, A>, late: u32) -> Build<'m, A>
        requires { IsComplete job.now layers.items }
        ensures { result ≡ record { job = job.now; layers = layers.items; late = late } }
    {
        Build { job, layers, late }
    }

    /// The job.
    pub fn job(&self) -> &'m Job<A>
        ensures { result.now ≡ self.now.job }
    {
        self.job
    }

    /// Layer k, or `None` exactly if the grid has no layer of that number. Layers count from 0.
    pub fn layer(&self, k: u32) -> Option<&Layer<A>>
        ensures some { IfSome result (λ layer. slice_get self.now.layers k ≡ Some layer.now) }
        ensures lawful { IfSome result (λ layer. IsLawful self.now.job k layer.now) }
        ensures within { IfSome result (λ layer. k < self.now.job.grid.layers) }
        ensures none { IfNone result (self.now.job.grid.layers ≤ k) }
    {
        self.layers.get(k as usize)
    }

    /// All layers from 0 up, each lawful for the job.
    pub fn layers(&self) -> &[Layer<A>]
        ensures value { result.now ≡ self.now.layers }
        ensures complete { IsComplete self.now.job self.now.layers }
    {
        self.layers.as_slice()
    }

    /// The sum of the areas of all layers, in pixels.
    pub fn total_area(&self) -> u64
        ensures { result ≡ layers_area self.now.layers }
    {
        // they bound the sum
        self.job.grid().hold_limits();
        layers_area(self.layers.as_slice())
    }

    /// The number of layers that were not filed, so `Book::finish` made them.
    pub fn late(&self) -> u32
        ensures { result ≡ self.now.late }
    {
        self.late
    }
}

//! Pieces: what a worker makes of one stripe.
ghost use Rattle.std.specs.Prelude.{◌≡◌};
ghost use Rattle.build_book.specs.Piece.{IsStripe};

use crate::job::Job;
use crate::layer::Layer;
use std::alloc::Allocator;
use std::marker::Model;

/// The layers of one stripe of a job, each lawful for it.
#[derive(Drop)]
pub struct Piece<'m, A: Allocator> {
    job: &'m Job<A>,
    stripe: u64,
    layers: Vec<Layer<A>, A>,
}

impl<'m, A: Allocator> Model for Piece<'m, A> {
    ghost use Rattle.build_book.specs.Piece.{Piece, IsStripe};

    ghost Value = { Piece };

    ghost view = { λ p. record { job = p.job.now; stripe = p.stripe; layers = p.layers.items } };

    ghost invariant = { λ p. IsStripe p.job.now p.stripe p.layers.items };
}

impl<'m, A: Allocator> Piece<'m, A> {
    /// The piece with these parts.
    pub(crate) fn of(job: &'m Job<A>, stripe: u64, layers: Vec<Layer<A>, A>) -> Piece<'m, A>
        requires { IsStripe job.now stripe layers.items }
        ensures { result ≡ record { job = job.now; stripe = stripe; layers = layers.items } }
    {
        Piece {
            job,
            stripe,
            layers,
        }
    }

    /// The job whose layers these are.
    pub fn job(&self) -> &'m Job<A>
        ensures { result.now ≡ self.now.job }
    {
        self.job
    }

    /// The number of its stripe.
    pub fn stripe(&self) -> u64
        ensures { result ≡ self.now.stripe }
    {
        self.stripe
    }

    /// Its layers, from the lowest up: exactly those of its stripe, each lawful for the job.
    pub fn layers(&self) -> &[Layer<A>]
        ensures value { result.now ≡ self.now.layers }
        ensures lawful { IsStripe self.now.job self.now.stripe self.now.layers }
    {
        self.layers.as_slice()
    }

    /// Its layers, to be filed.
    pub(crate) fn into_layers(self) -> Vec<Layer<A>, A>
        ensures { result.items ≡ self.entry.layers }
    {
        let Piece { layers, .. } = self;
        layers
    }
}

//! Claims and their passes. A draw is one `fetch_add` on the one word of a table.
ghost use Rattle.std.specs.Prelude.{◌≡◌, ◌+◌, ◌<◌, ◌≤◌, ℕ, [], ◌∷◌, ◌++◌, length, All, Any, IfOk, IfSome, IfNone, None, Some, true, false, if◌then◌else◌, is_none, nat_lt};
ghost use Rattle.stripe_claims.specs.Machine.{times, once_below, IsEachOnce, given, hand, hand_of, one_less, view};
ghost use Rattle.stripe_claims.specs.Claims.{found_by_all, plan_of, IsOwned, IsFresh, HasGathered, HasReached};
ghost use Rattle.stripe_claims.specs.declared.limits.TheConstants.{PASS_LIMIT, STRIPE_LIMIT};

use crate::machine::{Cuts, Draws, Joins, Machine, Plan, View};
use atomic_table::{Seat, Table};
use std::alloc::{AllocError, Allocator};
use std::marker::Model;

/// The numbers below `stripes` that draws give out, none of them twice. Threads share the claims by reference.
#[derive(Drop)]
pub struct Claims<A: Allocator> {
    table: Table<(), View, Plan, Machine, A>,
    stripes: u64,
}

impl<A: Allocator> Model for Claims<A> {
    ghost use Rattle.stripe_claims.specs.Claims.{Claims, claims_code, IsSound};

    ghost Value = { Claims };

    ghost coded = { claims_code };

    ghost view = { λ c. record { stripes = c.stripes; passes = c.table.shared.key.passes; name = c.table.shared.table_id } };

    ghost invariant = { λ c. IsSound c.table.shared.key c.table.shared.table_id c.stripes };
}

/// What one thread draws with. It belongs to the claims that it was opened with.
#[derive(Drop)]
pub struct Pass {
    seat: Seat<(), View>,
    ended: bool,
}

impl Model for Pass {
    ghost use Rattle.std.specs.Prelude.{◌≡◌, []};
    ghost use Rattle.stripe_claims.specs.Claims.{Pass, pass_code};

    ghost Value = { Pass };

    ghost coded = { pass_code };

    ghost view = { λ p. record { owner = p.seat.table_id; plan = p.seat.me.0.plan; found = p.seat.me.0.found; has_ended = p.ended } };

    ghost invariant = { λ p. (p.seat.me.1 ≡ []) × (p.seat.me.0.stands_for ≡ 1) };
}

impl<A: Allocator + Copy> Claims<A> {
    /// Claims to the numbers below `stripes`, which is at most `STRIPE_LIMIT`, and `passes` passes, 1 to `PASS_LIMIT`, none of
    /// which has drawn. The result is `Err` only if an allocation failed.
    pub fn open(
        alloc: A,
        stripes: u64,
        passes: u32,
    ) -> Result<(Claims<A>, Vec<Pass, A>), AllocError>
        requires stripes { stripes ≤ STRIPE_LIMIT }
        requires passes { (1 ≤ passes) × (passes ≤ PASS_LIMIT) }
        ensures plan { IfOk result (λ r. (r.0.stripes ≡ stripes) × (r.0.passes ≡ passes)) }
        ensures count { IfOk result (λ r. length r.1.items ≡ passes) }
        ensures owned { IfOk result (λ r. All (IsOwned r.0) r.1.items) }
        ensures fresh { IfOk result (λ r. All IsFresh r.1.items) }
    {
        let (claims, rest) = Claims::start(alloc, stripes, u64::from(passes))?;
        let dealt = claims.deal(alloc, rest, passes)?;
        Ok((claims, dealt))
    }

    /// The claims, and the first hand: a seat that stands for all passes.
    fn start(alloc: A, stripes: u64, passes: u64) -> Result<(Claims<A>, Seat<(), View>), AllocError>
        requires { (stripes ≤ STRIPE_LIMIT) × (1 ≤ passes) × (passes ≤ PASS_LIMIT) }
        ensures plan { IfOk result (λ r. (r.0.stripes ≡ stripes) × (r.0.passes ≡ passes)) }
        ensures seat { IfOk result (λ r. (r.1.table_id ≡ r.0.name) × (r.1.me ≡ (view (plan_of r.0) (hand passes []), []))) }
    {
        let plan = Plan { stripes, passes };
        let (table, rest) = Table::of_words(alloc, &[0], &plan)?;
        Ok((Claims { table, stripes }, rest))
    }

    /// Cuts a seat that stands for all passes, and has found nothing, into single passes.
    fn deal(
        &self,
        alloc: A,
        mut rest: Seat<(), View>,
        passes: u32,
    ) -> Result<Vec<Pass, A>, AllocError>
        requires seat { (rest.table_id ≡ self.now.name) × (rest.me ≡ (view (plan_of self.now) (hand passes []), [])) }
        requires some { 1 ≤ passes }
        ensures count { IfOk result (λ v. length v.items ≡ passes) }
        ensures owned { IfOk result (λ v. All (IsOwned self.now) v.items) }
        ensures fresh { IfOk result (λ v. All IsFresh v.items) }
    {
        let mut dealt = Vec::with_capacity(alloc, passes as usize)?;
        for _ in 0..passes - 1 {
            dealt.push(self.cut(&mut rest))?;
        }
        dealt.push(Pass {
            seat: rest,
            ended: false,
        })?;
        Ok(dealt)
    }

    /// Cuts one pass off the seat, which stands for several and has found nothing.
    fn cut(&self, rest: &mut Seat<(), View>) -> Pass
        requires seat { (rest.old.table_id ≡ self.now.name) × (rest.old.me.0.plan ≡ plan_of self.now)
            × (1 < rest.old.me.0.stands_for) × (rest.old.me.0.found ≡ []) }
        ensures rest { (rest.new.table_id ≡ rest.old.table_id) × (rest.new.me ≡ (one_less rest.old.me.0, rest.old.me.1)) }
        ensures owned { IsOwned self.now result }
        ensures fresh { IsFresh result }
    {
        Pass {
            seat: self.table.shared.split_seat::<Cuts>(rest),
            ended: false,
        }
    }

    /// The number that the word holds, if it is below `stripes`, else `None`. The draw appends that number to the pass's list and
    /// raises the word by 1. Steps of the claims machine lead to a moment with that word and that list (`drawn`). There the lists
    /// of all passes hold each number below the word once and nothing else (`claims_laws`). That it is the moment after this draw
    /// is the rule of the table.
    ///
    /// After a `None` the word is above `stripes`, and the pass has ended. Further draws with it return `None` without an
    /// atomic step. The pass must be of these claims. A draw never waits for another thread, and allocates nothing.
    pub fn draw(&self, pass: &mut Pass) -> Option<u64>
        requires { IsOwned self.now pass.old }
        ensures owned { IsOwned self.now pass.new }
        ensures ended { pass.old.has_ended ≡ true → (result ≡ None) × (pass.new ≡ pass.old) }
        ensures drawn { pass.old.has_ended ≡ false → (x : ℕ)
            × (pass.new.found ≡ pass.old.found ++ x ∷ []) × All (λ y. y < x) pass.old.found
            × (result ≡ (if nat_lt x self.now.stripes then Some x else None))
            × HasReached self.now (hand 1 pass.new.found) (x + 1) }
        ensures ends { pass.new.has_ended ≡ is_none result }
        ensures below { IfSome result (λ x. x < self.now.stripes) }
    {
        if pass.ended {
            return None;
        }
        let number = self.table.shared.fetch_add::<Draws>(&mut pass.seat, 0, 1);
        if number < self.stripes {
            Some(number)
        } else {
            pass.ended = true;
            None
        }
    }

    /// Closes the claims and returns the last value of the word: how many draws made an atomic step. The passes must be of
    /// these claims. If all passes that were opened are given, they have found the numbers below that value, each once. If all
    /// of them have ended too, they were given all numbers below `stripes`, each once.
    pub fn close(self, passes: Vec<Pass, A>) -> u64
        requires { All (IsOwned self) passes.items }
        // for any passes of these claims
        ensures machine { HasGathered self passes.items result }
        ensures once { (x : ℕ) → times x (found_by_all passes.items) ≤ once_below x result }
        ensures count { length (found_by_all passes.items) ≤ result }
        ensures ended { Any (λ p. p.has_ended ≡ true) passes.items → self.stripes < result }
        ensures most { result ≤ self.stripes + self.passes }
        // for all passes that were opened
        ensures whole { length passes.items ≡ self.passes → IsEachOnce result (found_by_all passes.items) }
        ensures all { length passes.items ≡ self.passes → length (found_by_all passes.items) ≡ result }
        ensures given { length passes.items ≡ self.passes → All (λ p. p.has_ended ≡ true) passes.items
            → IsEachOnce self.stripes (given self.stripes (found_by_all passes.items)) }
    {
        match self.gather(passes) {
            Some(all) => self.word_with(all),
            None => self.word(),
        }
    }

    /// Joins the passes: one seat that stands for all of them, or `None` if there are no passes.
    fn gather(&self, mut passes: Vec<Pass, A>) -> Option<Seat<(), View>>
        requires { All (IsOwned self.now) passes.items }
        ensures none { IfNone result (passes.items ≡ []) }
        ensures table { IfSome result (λ s. s.table_id ≡ self.now.name) }
        ensures some { IfSome result (λ _. 0 < length passes.items) }
        ensures stands_for { IfSome result (λ s. s.me.0.stands_for ≡ length passes.items) }
        ensures times { IfSome result (λ s. (x : ℕ) → times x s.me.0.found ≡ times x (found_by_all passes.items)) }
        ensures length { IfSome result (λ s. length s.me.0.found ≡ length (found_by_all passes.items)) }
    {
        let mut all = passes.pop()?.into_seat();
        while let Some(pass) = passes.pop() {
            self.table
                .shared
                .join_seat::<Joins>(&mut all, pass.into_seat());
        }
        Some(all)
    }

    /// Closes the claims with a seat of their table, and returns the last value of the word. The seat's numbers are below it.
    fn word_with(self, seat: Seat<(), View>) -> u64
        requires { seat.table_id ≡ self.name }
        ensures machine { HasReached self (hand_of seat.me.0) result }
        ensures once { (x : ℕ) → times x seat.me.0.found ≤ once_below x result }
        ensures count { length seat.me.0.found ≤ result }
        ensures most { result ≤ self.stripes + self.passes }
        ensures whole { seat.me.0.stands_for ≡ self.passes → IsEachOnce result seat.me.0.found }
        ensures all { seat.me.0.stands_for ≡ self.passes → length seat.me.0.found ≡ result }
    {
        let Claims { table, stripes: _ } = self;
        let closed = table.close_with(seat);
        let word = closed.word(0);
        closed.free();
        word
    }

    /// Closes the claims without a seat, and returns the last value of the word.
    fn word(self) -> u64
        ensures machine { HasGathered self [] result }
        ensures most { result ≤ self.stripes + self.passes }
        ensures some { 0 < self.passes }
    {
        let Claims { table, stripes: _ } = self;
        let closed = table.close();
        let word = closed.word(0);
        closed.free();
        word
    }
}

impl Pass {
    /// Its seat.
    fn into_seat(self) -> Seat<(), View>
        ensures seat { (result.table_id ≡ self.owner) × (result.me.1 ≡ []) }
        ensures hand { (result.me.0.stands_for ≡ 1) × (result.me.0.found ≡ self.found) }
    {
        let Pass { seat, ended: _ } = self;
        seat
    }
}

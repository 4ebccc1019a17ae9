//! What follows from the steps of the claims machine alone, for any number of passes in any order.
ghost use Rattle.std.specs.Prelude.{◌+◌, ◌≤◌};
ghost use Rattle.stripe_claims.specs.declared.machine.Plan.{Plan};
ghost use Rattle.stripe_claims.specs.Machine.{Moment, IsReachable, IsFair, NeverTwice, EndsLast};

/// In every state (`Moment`) that steps can reach, the lists of all hands together hold each number below the word once and
/// nothing else. So no number is found twice, and the word is at most the number of stripes and of passes together. Once a pass
/// has ended, each number below `stripes` has been found.
pub fn claims_laws()
    ensures fair { (plan : Plan) (m : Moment) → IsReachable plan m → IsFair plan m }
    ensures most { (plan : Plan) (m : Moment) → IsReachable plan m → m.word ≤ plan.stripes + plan.passes }
    ensures twice { (plan : Plan) (m : Moment) → IsReachable plan m → NeverTwice m }
    ensures last { (plan : Plan) (m : Moment) → IsReachable plan m → EndsLast plan m }
{}

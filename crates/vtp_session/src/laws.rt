//! Facts of the definitions that the crates above cite, each told by a function that does nothing.

ghost use Rattle.std.specs.Prelude.{◌≡◌, ℕ, List};
ghost use Rattle.vtp_session.specs.Acts.{Means};
ghost use Rattle.vtp_session.specs.declared.act.Act.{Act};
ghost use Rattle.vtp_session.specs.declared.side.Side.{Side};

use voe_tree::laws::trees_are_unique;

/// A payload at a place of a stream is at most one thing to a side.
pub fn payloads_mean_one_thing()
    ensures { (side : Side) (place : ℕ) (payload : List ℕ) (unanswered : List (List ℕ)) (a c : Act) → Means side place payload unanswered a → Means side place payload unanswered c → a ≡ c }
{
    trees_are_unique();
}

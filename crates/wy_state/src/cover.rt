//! The covers of statements, by number.

ghost use Rattle.std.specs.Prelude.{◌≡◌, ◌≢◌, IfSome};
ghost use Rattle.wy_kernel.specs.View.{present};
ghost use Rattle.wy_steps.specs.Steps.{begun, ended, first_moment, left_by};
ghost use Rattle.wy_state.specs.Seen.{covered_of};

use wy_event::record::Cover;
use wy_kernel::types::NONE;

/// The moment of the first begin: this one, where there was none.
#[tactic(auto, unfolding(wy_steps::specs::Steps::first_moment, wy_kernel::specs::View::present))]
fn first_moment(first: u32, moment: u32) -> u32
    requires { moment ≢ 4294967295 }
    ensures { present result ≡ first_moment (present first) moment }
{
    if first == NONE { moment } else { first }
}

/// The cover of a statement that begins at a moment.
#[tactic(auto, unfolding(wy_steps::specs::Steps::begun))]
pub fn begun_at(cover: Cover, moment: u32) -> Option<Cover>
    ensures { IfSome result (λ c. covered_of c ≡ begun moment (covered_of cover)) }
{
    if cover.begins == u32::MAX || moment == NONE {
        return None;
    }
    Some(Cover {
        begins: cover.begins + 1,
        ends: cover.ends,
        first: first_moment(cover.first, moment),
        cause: cover.cause,
    })
}

/// The cover of a statement that ends normally.
#[tactic(auto, unfolding(wy_steps::specs::Steps::ended))]
pub fn ended(cover: Cover) -> Option<Cover>
    ensures { IfSome result (λ c. covered_of c ≡ ended (covered_of cover)) }
{
    if cover.ends == u32::MAX {
        return None;
    }
    Some(Cover {
        begins: cover.begins,
        ends: cover.ends + 1,
        first: cover.first,
        cause: cover.cause,
    })
}

/// The cover of a statement that an event leaves.
#[tactic(auto, unfolding(wy_steps::specs::Steps::left_by))]
pub fn left_by(cover: Cover, event: u32) -> Cover
    ensures cover { covered_of result ≡ left_by event (covered_of cover) }
    ensures cause { result ≡ record cover { cause = event } }
{
    Cover {
        begins: cover.begins,
        ends: cover.ends,
        first: cover.first,
        cause: event,
    }
}

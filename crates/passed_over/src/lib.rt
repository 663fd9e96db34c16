// How many corners gathering passes over for their kind (document 02, 1/14).

#![tactic(auto)]

ghost use Rattle.std.specs.Prelude.{◌≡◌, ◌<◌};
ghost use Rattle.sizes.specs.Sizes.{corner_limit};
ghost use Rattle.sheet.specs.Shades.{takes_kind, shades_in};
ghost use Rattle.candidates.specs.Candidates.{positions_in, unmarked};
ghost use Rattle.passed_over.specs.PassedOver.{is_passed_over, passed_over};

use candidates::Scan;

// Whether corner k is unlabelled, within the limit, and not taken by a cell of the kind.
#[tactic(auto, unfolding(crate::specs::PassedOver::is_passed_over))]
fn is_passed_over(scan: &Scan, k: usize, limit: f32) -> bool
    requires { k < corner_limit }
    ensures { result ≡ is_passed_over (positions_in scan.now.held.corners.now) (unmarked scan.now.held.used.now)
        (takes_kind (shades_in scan.now.held.corners.now) scan.now.kind) scan.now.prediction limit k }
{
    !scan.held.used[k] && scan.is_near(k, limit) && !scan.is_taken(k)
}

// How many unlabelled corners within the radius a cell of the kind does not take; none if no shade stands, or if the prediction is not finite.
pub fn count_passed_over(scan: &Scan, search_r: f32) -> usize
    ensures { result ≡ passed_over (positions_in scan.now.held.corners.now) (unmarked scan.now.held.used.now)
        (takes_kind (shades_in scan.now.held.corners.now) scan.now.kind) scan.now.held.corners.now.count.number scan.now.prediction search_r }
{
    if !scan.held.corners.is_shaded() || !scan.prediction.is_finite() {
        return 0;
    }
    let limit = search_r * search_r;
    (0..scan.held.corners.count.number)
        .filter(|k| is_passed_over(scan, *k, limit))
        .count()
}

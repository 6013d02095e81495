ghost use Rattle.std.specs.Prelude.{◌≡◌, ℕ, List, [], ◌∷◌, ◌++◌, OnOk, IfErr, OnErr};
ghost use Rattle.indications.specs.LaneLists.{IsLaneList};
ghost use Rattle.indications.specs.declared.bundle.Bundle.{Bundle as BundleValue};

use crate::bundle::Bundle;

/// An outlet: the end of a user's queue into which one lane puts its bundles.
pub trait Outlet {
    /// The user's number.
    ghost user: { Self → ℕ };

    /// The lane's number among the user's lanes.
    ghost lane: { Self → ℕ };

    /// What the lane has sent may be exactly these bundles, as far as the outlet shows.
    ghost stands: { Self → List BundleValue → Type 0 };

    /// The effect of an offer that is accepted.
    ghost takes: { Self → BundleValue → Self → Type 0 };

    /// The effect of an offer that is refused.
    ghost returns: { Self → Self → Type 0 };

    /// Appends a bundle of this lane to the queue, after those that the lane sent before. Gives it back where the queue
    /// is full.
    fn offer(&mut self, bundle: Bundle) -> Result<(), Bundle>
        requires of_user { bundle.user ≡ user self.old }
        requires of_lane { bundle.lane ≡ lane self.old }
        requires goes_on { (bundles : List BundleValue) × stands self.old bundles
            × IsLaneList bundle.user bundle.lane bundle.key.source (bundles ++ bundle ∷ []) }
        ensures taken { OnOk result (takes self.old bundle self.new) }
        ensures same { IfErr result (λ back. back ≡ bundle) }
        ensures returned { OnErr result (returns self.old self.new) };

    /// An accepted offer adds the bundle to what the lane has sent.
    ghost takes_adds: { (old new : Self) (bundle : BundleValue) → takes old bundle new
        → (user new ≡ user old) × (lane new ≡ lane old)
        × ((bundles : List BundleValue) → stands old bundles → stands new (bundles ++ bundle ∷ [])) };

    /// A refused offer leaves what the lane has sent as it was.
    ghost returns_keeps: { (old new : Self) → returns old new
        → (user new ≡ user old) × (lane new ≡ lane old)
        × ((bundles : List BundleValue) → stands old bundles → stands new bundles) };
}

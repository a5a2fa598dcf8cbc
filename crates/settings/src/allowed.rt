// Which settings are allowed: each as the repair that takes it has it.
ghost use Rattle.std.specs.Prelude.{◌≡◌};
ghost use Rattle.settings.specs.Settings.{allowed_v1, allowed};

use super::{Settings, SettingsV1};
use declip::threshold_allowed;
use inpaint::auto::{held_allowed, settings_allowed};

// Whether the settings of version 1 are allowed. Of sensitivity and strength only a NaN is not; bits may be any.
#[tactic(auto, unfolding(crate::specs::Settings::allowed_v1))]
pub fn allowed_v1(settings: SettingsV1) -> bool
    ensures { result ≡ allowed_v1 settings }
{
    threshold_allowed(settings.threshold)
        && !settings.sensitivity.is_nan()
        && !settings.strength.is_nan()
        && settings_allowed(settings.rate, settings.longest)
}

// Whether those of version 2 are, which has the held run's length beside them.
#[tactic(auto, unfolding(crate::specs::Settings::allowed))]
pub fn allowed(settings: Settings) -> bool
    ensures { result ≡ allowed settings }
{
    allowed_v1(settings.first) && held_allowed(settings.held)
}

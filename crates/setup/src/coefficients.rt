// 01, 'Setup': the examination of tension, stiffness and losses, 2 and 3.
ghost use Rattle.std.specs.Prelude.{◌≡◌, ◌+◌, ◌*◌, ◌≤◌, ltb};
ghost use Rattle.model.specs.Setup.{coefficient_wrong};

use model::Setup;
use model::bounds::LARGEST_COEFFICIENT;

// 2: the tension is 0, or it, the stiffness or a loss is above 4096.
pub fn coefficient_wrong(setup: Setup) -> bool
    ensures { result ≡ coefficient_wrong setup }
{
    let tension = setup.tension;
    let stiffness = setup.stiffness;
    let viscous = setup.viscous;
    let plain = setup.plain;
    (tension == 0)
        | ((LARGEST_COEFFICIENT < tension)
            | ((LARGEST_COEFFICIENT < stiffness)
                | ((LARGEST_COEFFICIENT < viscous) | (LARGEST_COEFFICIENT < plain))))
}

// 3: L + 4M + 2S is above 4096. The sum is formed only where 2 has passed, so that it does not overflow.
pub fn sum_wrong(tension: u32, stiffness: u32, viscous: u32) -> bool
    requires { (tension ≤ 4096) × (stiffness ≤ 4096) × (viscous ≤ 4096) }
    ensures { result ≡ ltb 4096 (tension + 4 * stiffness + 2 * viscous) }
{
    LARGEST_COEFFICIENT < tension + 4 * stiffness + 2 * viscous
}

// Launch constraints, tests 29 and 30.
ghost use Rattle.std.specs.Prelude.{◌≡◌};
ghost use Rattle.refusals.specs.Refusals.{first, accepted};
ghost use Rattle.refusals.specs.Named.{test_answer};
ghost use Rattle.trustcache.specs.Launch.{launch_rows};

use refusals::Refusal;

// The category whose constraints are tested.
const CONSTRAINED: usize = 1;

// The launch type and the validation category that its self constraint asks for.
const LAUNCH_TYPE: u8 = 1;

const VALIDATION_CATEGORY: u8 = 1;

// The facts of a launch.
#[repr(C)]
#[derive(Clone, Copy)]
pub struct Launch {
    pub on_authorized_volume: bool,
    pub on_system_volume: bool,
    pub launch_type: u8,
    pub validation_category: u8,
    pub parent_is_init: bool,
}

// Tests 29 and 30, of a launch under a category.
pub fn launch_tested(category: usize, facts: Launch) -> Result<(), Refusal>
    ensures { test_answer result ≡ first (launch_rows category facts) accepted }
{
    if category != CONSTRAINED {
        return Ok(());
    }
    if !facts.on_authorized_volume && !facts.on_system_volume {
        return Err(Refusal::SelfConstraint);
    }
    if facts.launch_type != LAUNCH_TYPE || facts.validation_category != VALIDATION_CATEGORY {
        return Err(Refusal::SelfConstraint);
    }
    if !facts.parent_is_init {
        return Err(Refusal::ParentConstraint);
    }
    Ok(())
}

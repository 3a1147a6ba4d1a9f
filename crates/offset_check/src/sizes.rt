// Sides and depth.
ghost use Rattle.bddl_model.specs.Check.{size_fault, depth_fault};
ghost use Rattle.offset_check.specs.Checks.{Checks};

use bddl_model::{Axis, CheckFault, GREATEST_SIDE};

/// A side of the board is 1 to the greatest one.
pub fn check_size(axis: Axis, said: u32) -> Result<(), CheckFault>
    ensures { Checks (size_fault axis said) result }
{
    if 1 <= said && said <= GREATEST_SIDE {
        return Ok(());
    }
    Err(CheckFault::SizeOutOfRange { axis, said })
}

/// A depth is at most 31.
pub fn check_depth(said: u32) -> Result<(), CheckFault>
    ensures { Checks (depth_fault said) result }
{
    if said <= 31 {
        return Ok(());
    }
    Err(CheckFault::DepthOutOfRange { said })
}

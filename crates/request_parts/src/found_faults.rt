// Faults that aren't want of memory.
ghost use Rattle.std.specs.Prelude.{◌≢◌};
ghost use Rattle.bddl_model.specs.declared.certificate.CertFault.TheVariants.{NoMemory as no_certificate};
ghost use Rattle.bddl_model.specs.declared.certificate.CertReadFault.TheVariants.{NoMemory as no_text};
ghost use Rattle.bddl_model.specs.declared.check.CheckFault.TheVariants.{NoMemory as no_game};
ghost use Rattle.bddl_model.specs.declared.fault.QFault.TheVariants.{NoMemory as no_formula};

use bddl_model::{CertFault, CertReadFault, CheckFault, QFault};

/// A fault of a game. It isn't want of memory.
#[derive(Clone, Copy)]
pub struct GameFault {
    pub fault: CheckFault,
    ghost is_found: { fault ≢ no_game },
}

/// A fault of a formula's text. It isn't want of memory.
#[derive(Clone, Copy)]
pub struct FormulaFault {
    pub fault: QFault,
    ghost is_found: { fault ≢ no_formula },
}

/// A fault of a certificate's text. It isn't want of memory.
#[derive(Clone, Copy)]
pub struct CertTextFault {
    pub fault: CertReadFault,
    ghost is_found: { fault ≢ no_text },
}

/// A fault of a certificate. It isn't want of memory.
#[derive(Clone, Copy)]
pub struct NodeFault {
    pub fault: CertFault,
    ghost is_found: { fault ≢ no_certificate },
}

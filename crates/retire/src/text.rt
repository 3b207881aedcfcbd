// What is printed.
use codec::word::Finding;
use stack::refusal::Refusal;
use std::fmt;

// What a read answered.
#[derive(Drop)]
pub struct Told(pub Result<Finding, Refusal>);

impl fmt::Display for Told {
    fn fmt<W: fmt::Write>(&self, f: &mut fmt::Formatter<W>) -> fmt::Result {
        match &self.0 {
            Ok(Finding::Clean) => write!(f, "clean"),
            Ok(Finding::Corrected((s, x))) => write!(f, "corrected in symbol {s} by {x:02X}"),
            Ok(Finding::Rebuilt) => write!(f, "rebuilt from its group"),
            Ok(Finding::RebuiltCorrected((s, x))) => write!(
                f,
                "rebuilt from its group and corrected in symbol {s} by {x:02X}"
            ),
            Err(refusal) => write!(f, "{refusal}"),
        }
    }
}

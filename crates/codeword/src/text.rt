// What is printed.
use codec::word::{Finding, Uncorrectable};
use std::fmt;

// Bytes as hexadecimal digits in capitals.
#[derive(Drop)]
pub struct Hex<'a>(pub &'a [u8]);

impl fmt::Display for Hex<'_> {
    fn fmt<W: fmt::Write>(&self, f: &mut fmt::Formatter<W>) -> fmt::Result {
        for b in self.0 {
            write!(f, "{b:02X}")?;
        }
        Ok(())
    }
}

// What decoding a word gave.
#[derive(Drop)]
pub struct Outcome(pub Result<Finding, Uncorrectable>);

impl fmt::Display for Outcome {
    fn fmt<W: fmt::Write>(&self, f: &mut fmt::Formatter<W>) -> fmt::Result {
        let finding = match &self.0 {
            Ok(finding) => finding,
            Err(error) => return write!(f, "{error}"),
        };
        let number = finding.number();
        match finding {
            Finding::Clean => write!(f, "clean, finding {number}"),
            Finding::Corrected((s, x)) => write!(
                f,
                "corrected, finding {number}: symbol {s} by XOR {x:02X}"
            ),
            Finding::Rebuilt => write!(f, "rebuilt, finding {number}"),
            Finding::RebuiltCorrected((s, x)) => write!(
                f,
                "rebuilt and corrected, finding {number}: symbol {s} by XOR {x:02X}"
            ),
        }
    }
}

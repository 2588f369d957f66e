//! Why the text of a certificate is refused.

use aud_text::TextFault;
use thiserror::Error;

/// Why a certificate's text is refused, and at which of its lines, counted from 1, empty ones too.
///
/// A text that ends too early is refused at the line after its last.
#[derive(Clone, Copy, Debug, PartialEq, Eq, Error)]
#[error("line {line}: {fault}")]
pub struct CertTextFault {
    pub line: usize,
    pub fault: TextFault,
}

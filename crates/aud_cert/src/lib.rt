#![tactic(auto)]
//! Certificates that no order shows a history: made, read and written, and what an accepted one finds.
//!
//! For whoever wants evidence that he can hand on, or judges some. `make_cert` makes one, if no order shows the history; `write_cert` and
//! `read_cert` are its text; `check_cert` judges it, and `finding_of` turns it into what a node may be offered.
//!
//! ```
//! if let Some(cert) = make_cert(alloc, &shape)? {
//!     let text = write_cert(alloc, &cert)?;
//!     assert!(check_cert(alloc, &shape, &read_cert(alloc, &text)?)?);
//! }
//! ```

mod fault;
mod finding;
pub mod laws;
mod line;
mod lines;
mod making;
mod order;
mod read;
mod reason;
mod spelled;
mod write;

pub use cert_accept::{Cert, CertLine, check_cert};
pub use fault::CertTextFault;
pub use finding::finding_of;
pub use line::CERT_LINE_MAX;
pub use making::make_cert;
pub use read::{read_cert, read_cert_into};
pub use write::write_cert;

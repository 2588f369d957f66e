#![tactic(auto)]
//! Certificates that no order shows a history, and the checker that accepts them.
//!
//! For whoever was given a certificate and trusts none of it. A `Cert` has lines, each with a prefix and what refutes it; `check_cert` says whether
//! each follows from the lines before it and the last refutes the empty prefix: then no order shows the history.
//!
//! ```
//! let mut lines = Vec::new(alloc);
//! lines.push(CertLine::Kids(Prefix::empty(alloc)))?;
//! let shape = Shape::of(alloc, sealed)?;
//! let is_accepted = check_cert(alloc, &shape, &Cert { lines })?;
//! ```

mod cert;
mod checking;
pub mod laws;

pub use cert::{Cert, CertLine};
pub use checking::check_cert;

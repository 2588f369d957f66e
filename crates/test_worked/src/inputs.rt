//! Inputs at the edges: limits, and facts that wait, lack a stamp, or contradict one another.

/// No records of a register.
pub const NO_RECORDS: &str = r#"{"format":1,"logs":1,"objects":1}
{"kind":"register","name":"x","open":0}
{"end":0,"log":0}
"#;

/// A record of transaction 1,024, which is refused.
pub const GREAT_TRANSACTION: &str = r#"{"format":1,"logs":1,"objects":1}
{"kind":"register","name":"x","open":0}
{"at":0,"ev":"inv","log":0,"ob":"x","op":"read","stamp":0,"tx":1024}
{"end":1,"log":0}
"#;

/// A record of transaction 1,023.
pub const GREATEST_TRANSACTION: &str = r#"{"format":1,"logs":1,"objects":1}
{"kind":"register","name":"x","open":0}
{"at":0,"ev":"inv","log":0,"ob":"x","op":"read","stamp":0,"tx":1023}
{"end":1,"log":0}
"#;

/// `READER_AFTER_COMMIT` with transaction 1 in log 0 and transaction 2 in log 1, but for the record at place 1 of log 1.
pub const LATE_RECORD: &str = r#"{"format":1,"logs":2,"objects":1}
{"kind":"register","name":"x","open":0}
{"arg":1,"at":0,"ev":"inv","log":0,"ob":"x","op":"write","stamp":0,"tx":1}
{"ans":"done","at":1,"ev":"ret","log":0,"ob":"x","op":"write","stamp":1,"tx":1}
{"at":2,"ev":"tryc","log":0,"stamp":2,"tx":1}
{"at":3,"ev":"commit","log":0,"stamp":3,"tx":1}
{"at":0,"ev":"inv","log":1,"ob":"x","op":"read","stamp":4,"tx":2}
{"at":2,"ev":"tryc","log":1,"stamp":6,"tx":2}
{"at":3,"ev":"commit","log":1,"stamp":7,"tx":2}
{"end":4,"log":0}
{"end":4,"log":1}
"#;

/// The record that `LATE_RECORD` lacks.
pub const LATE: &str =
    r#"{"ans":1,"at":1,"ev":"ret","log":1,"ob":"x","op":"read","stamp":5,"tx":2}"#;

/// `READER_AFTER_COMMIT` with another record at place 0.
pub const TWO_RECORDS: &str = r#"{"format":1,"logs":1,"objects":1}
{"kind":"register","name":"x","open":0}
{"arg":1,"at":0,"ev":"inv","log":0,"ob":"x","op":"write","stamp":0,"tx":1}
{"ans":"done","at":1,"ev":"ret","log":0,"ob":"x","op":"write","stamp":1,"tx":1}
{"at":2,"ev":"tryc","log":0,"stamp":2,"tx":1}
{"at":3,"ev":"commit","log":0,"stamp":3,"tx":1}
{"at":4,"ev":"inv","log":0,"ob":"x","op":"read","stamp":4,"tx":2}
{"ans":1,"at":5,"ev":"ret","log":0,"ob":"x","op":"read","stamp":5,"tx":2}
{"at":6,"ev":"tryc","log":0,"stamp":6,"tx":2}
{"at":7,"ev":"commit","log":0,"stamp":7,"tx":2}
{"end":8,"log":0}
{"arg":2,"at":0,"ev":"inv","log":0,"ob":"x","op":"write","stamp":0,"tx":1}
"#;

/// One record, with stamp 1.
pub const MISSING_STAMP: &str = r#"{"format":1,"logs":1,"objects":1}
{"kind":"register","name":"x","open":0}
{"at":0,"ev":"tryc","log":0,"stamp":1,"tx":1}
{"end":1,"log":0}
"#;

/// Stamps 1 and 0 at places 0 and 1.
pub const FALLING_STAMPS: &str = r#"{"format":1,"logs":1,"objects":1}
{"kind":"register","name":"x","open":0}
{"at":0,"ev":"tryc","log":0,"stamp":1,"tx":1}
{"at":1,"ev":"tryc","log":0,"stamp":0,"tx":1}
{"end":2,"log":0}
"#;

/// Stamp 0 at places 0 and 1.
pub const SAME_STAMPS: &str = r#"{"format":1,"logs":1,"objects":1}
{"kind":"register","name":"x","open":0}
{"at":0,"ev":"tryc","log":0,"stamp":0,"tx":1}
{"at":1,"ev":"tryc","log":0,"stamp":0,"tx":1}
"#;

/// `READER_AFTER_COMMIT` with a second end mark.
pub const TWO_COUNTS: &str = r#"{"format":1,"logs":1,"objects":1}
{"kind":"register","name":"x","open":0}
{"arg":1,"at":0,"ev":"inv","log":0,"ob":"x","op":"write","stamp":0,"tx":1}
{"ans":"done","at":1,"ev":"ret","log":0,"ob":"x","op":"write","stamp":1,"tx":1}
{"at":2,"ev":"tryc","log":0,"stamp":2,"tx":1}
{"at":3,"ev":"commit","log":0,"stamp":3,"tx":1}
{"at":4,"ev":"inv","log":0,"ob":"x","op":"read","stamp":4,"tx":2}
{"ans":1,"at":5,"ev":"ret","log":0,"ob":"x","op":"read","stamp":5,"tx":2}
{"at":6,"ev":"tryc","log":0,"stamp":6,"tx":2}
{"at":7,"ev":"commit","log":0,"stamp":7,"tx":2}
{"end":8,"log":0}
{"end":9,"log":0}
"#;

/// A record at place 3 and an end mark of 2.
pub const PAST_COUNT: &str = r#"{"format":1,"logs":1,"objects":1}
{"kind":"register","name":"x","open":0}
{"at":3,"ev":"tryc","log":0,"stamp":0,"tx":1}
{"end":2,"log":0}
"#;

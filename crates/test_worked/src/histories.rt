//! The worked histories: sealed inputs of one log, each named for what it shows.

/// No event of no transaction, on no object.
pub const NOTHING_HAPPENED: &str = r#"{"format":1,"logs":1,"objects":0}
{"end":0,"log":0}
"#;

/// Transaction 1 writes 1 to x and commits; transaction 2 then reads it and commits.
pub const READER_AFTER_COMMIT: &str = r#"{"format":1,"logs":1,"objects":1}
{"kind":"register","name":"x","open":0}
{"arg":1,"at":0,"ev":"inv","log":0,"ob":"x","op":"write","stamp":0,"tx":1}
{"ans":"done","at":1,"ev":"ret","log":0,"ob":"x","op":"write","stamp":1,"tx":1}
{"at":2,"ev":"tryc","log":0,"stamp":2,"tx":1}
{"at":3,"ev":"commit","log":0,"stamp":3,"tx":1}
{"at":4,"ev":"inv","log":0,"ob":"x","op":"read","stamp":4,"tx":2}
{"ans":1,"at":5,"ev":"ret","log":0,"ob":"x","op":"read","stamp":5,"tx":2}
{"at":6,"ev":"tryc","log":0,"stamp":6,"tx":2}
{"at":7,"ev":"commit","log":0,"stamp":7,"tx":2}
{"end":8,"log":0}
"#;

/// Transaction 2 sees x from before transaction 1 and y from after it. That it aborts does not excuse it.
pub const TORN_READ_THEN_ABORT: &str = r#"{"format":1,"logs":1,"objects":2}
{"kind":"register","name":"x","open":0}
{"kind":"register","name":"y","open":0}
{"at":0,"ev":"inv","log":0,"ob":"x","op":"read","stamp":0,"tx":2}
{"ans":0,"at":1,"ev":"ret","log":0,"ob":"x","op":"read","stamp":1,"tx":2}
{"arg":1,"at":2,"ev":"inv","log":0,"ob":"x","op":"write","stamp":2,"tx":1}
{"ans":"done","at":3,"ev":"ret","log":0,"ob":"x","op":"write","stamp":3,"tx":1}
{"arg":1,"at":4,"ev":"inv","log":0,"ob":"y","op":"write","stamp":4,"tx":1}
{"ans":"done","at":5,"ev":"ret","log":0,"ob":"y","op":"write","stamp":5,"tx":1}
{"at":6,"ev":"tryc","log":0,"stamp":6,"tx":1}
{"at":7,"ev":"commit","log":0,"stamp":7,"tx":1}
{"at":8,"ev":"inv","log":0,"ob":"y","op":"read","stamp":8,"tx":2}
{"ans":1,"at":9,"ev":"ret","log":0,"ob":"y","op":"read","stamp":9,"tx":2}
{"at":10,"ev":"tryc","log":0,"stamp":10,"tx":2}
{"at":11,"ev":"abort","log":0,"stamp":11,"tx":2}
{"end":12,"log":0}
"#;

/// Transaction 2 sees what commit-pending transaction 1 wrote, so transaction 1 commits.
pub const PENDING_COMMIT_IS_SEEN: &str = r#"{"format":1,"logs":1,"objects":1}
{"kind":"register","name":"x","open":0}
{"arg":1,"at":0,"ev":"inv","log":0,"ob":"x","op":"write","stamp":0,"tx":1}
{"ans":"done","at":1,"ev":"ret","log":0,"ob":"x","op":"write","stamp":1,"tx":1}
{"at":2,"ev":"tryc","log":0,"stamp":2,"tx":1}
{"at":3,"ev":"inv","log":0,"ob":"x","op":"read","stamp":3,"tx":2}
{"ans":1,"at":4,"ev":"ret","log":0,"ob":"x","op":"read","stamp":4,"tx":2}
{"at":5,"ev":"tryc","log":0,"stamp":5,"tx":2}
{"at":6,"ev":"commit","log":0,"stamp":6,"tx":2}
{"end":7,"log":0}
"#;

/// Transaction 2 does not see what commit-pending transaction 1 wrote.
pub const PENDING_COMMIT_IS_UNSEEN: &str = r#"{"format":1,"logs":1,"objects":1}
{"kind":"register","name":"x","open":0}
{"arg":1,"at":0,"ev":"inv","log":0,"ob":"x","op":"write","stamp":0,"tx":1}
{"ans":"done","at":1,"ev":"ret","log":0,"ob":"x","op":"write","stamp":1,"tx":1}
{"at":2,"ev":"tryc","log":0,"stamp":2,"tx":1}
{"at":3,"ev":"inv","log":0,"ob":"x","op":"read","stamp":3,"tx":2}
{"ans":0,"at":4,"ev":"ret","log":0,"ob":"x","op":"read","stamp":4,"tx":2}
{"at":5,"ev":"tryc","log":0,"stamp":5,"tx":2}
{"at":6,"ev":"commit","log":0,"stamp":6,"tx":2}
{"end":7,"log":0}
"#;

/// Transaction 2 begins after the commit of transaction 1 and misses what it wrote.
pub const STALE_READ_AFTER_COMMIT: &str = r#"{"format":1,"logs":1,"objects":1}
{"kind":"register","name":"x","open":0}
{"arg":1,"at":0,"ev":"inv","log":0,"ob":"x","op":"write","stamp":0,"tx":1}
{"ans":"done","at":1,"ev":"ret","log":0,"ob":"x","op":"write","stamp":1,"tx":1}
{"at":2,"ev":"tryc","log":0,"stamp":2,"tx":1}
{"at":3,"ev":"commit","log":0,"stamp":3,"tx":1}
{"at":4,"ev":"inv","log":0,"ob":"x","op":"read","stamp":4,"tx":2}
{"ans":0,"at":5,"ev":"ret","log":0,"ob":"x","op":"read","stamp":5,"tx":2}
{"at":6,"ev":"tryc","log":0,"stamp":6,"tx":2}
{"at":7,"ev":"commit","log":0,"stamp":7,"tx":2}
{"end":8,"log":0}
"#;

/// Transaction 2 sees what transaction 1 wrote, which never asked to commit.
pub const LIVE_WRITE_IS_SEEN: &str = r#"{"format":1,"logs":1,"objects":1}
{"kind":"register","name":"x","open":0}
{"arg":1,"at":0,"ev":"inv","log":0,"ob":"x","op":"write","stamp":0,"tx":1}
{"ans":"done","at":1,"ev":"ret","log":0,"ob":"x","op":"write","stamp":1,"tx":1}
{"at":2,"ev":"inv","log":0,"ob":"x","op":"read","stamp":2,"tx":2}
{"ans":1,"at":3,"ev":"ret","log":0,"ob":"x","op":"read","stamp":3,"tx":2}
{"at":4,"ev":"tryc","log":0,"stamp":4,"tx":2}
{"at":5,"ev":"commit","log":0,"stamp":5,"tx":2}
{"end":6,"log":0}
"#;

/// Transaction 2 reads before transaction 1 commits, which it then does. A beginning of this history is not opaque, the
/// whole is.
pub const READ_BEFORE_COMMIT: &str = r#"{"format":1,"logs":1,"objects":1}
{"kind":"register","name":"x","open":0}
{"arg":1,"at":0,"ev":"inv","log":0,"ob":"x","op":"write","stamp":0,"tx":1}
{"ans":"done","at":1,"ev":"ret","log":0,"ob":"x","op":"write","stamp":1,"tx":1}
{"at":2,"ev":"inv","log":0,"ob":"x","op":"read","stamp":2,"tx":2}
{"ans":1,"at":3,"ev":"ret","log":0,"ob":"x","op":"read","stamp":3,"tx":2}
{"at":4,"ev":"tryc","log":0,"stamp":4,"tx":1}
{"at":5,"ev":"commit","log":0,"stamp":5,"tx":1}
{"at":6,"ev":"tryc","log":0,"stamp":6,"tx":2}
{"at":7,"ev":"commit","log":0,"stamp":7,"tx":2}
{"end":8,"log":0}
"#;

/// Transaction 2 takes from the queue what transaction 1 put there, and transaction 3 finds the queue empty.
pub const ITEM_IS_PASSED_ON: &str = r#"{"format":1,"logs":1,"objects":1}
{"kind":"queue","name":"q"}
{"at":0,"ev":"inv","log":0,"ob":"q","op":"deq","stamp":0,"tx":2}
{"arg":5,"at":1,"ev":"inv","log":0,"ob":"q","op":"enq","stamp":1,"tx":1}
{"ans":"done","at":2,"ev":"ret","log":0,"ob":"q","op":"enq","stamp":2,"tx":1}
{"at":3,"ev":"tryc","log":0,"stamp":3,"tx":1}
{"at":4,"ev":"commit","log":0,"stamp":4,"tx":1}
{"at":5,"ev":"inv","log":0,"ob":"q","op":"deq","stamp":5,"tx":3}
{"ans":"empty","at":6,"ev":"ret","log":0,"ob":"q","op":"deq","stamp":6,"tx":3}
{"at":7,"ev":"tryc","log":0,"stamp":7,"tx":3}
{"at":8,"ev":"commit","log":0,"stamp":8,"tx":3}
{"ans":5,"at":9,"ev":"ret","log":0,"ob":"q","op":"deq","stamp":9,"tx":2}
{"at":10,"ev":"tryc","log":0,"stamp":10,"tx":2}
{"at":11,"ev":"commit","log":0,"stamp":11,"tx":2}
{"end":12,"log":0}
"#;

/// Transaction 1 writes the opening value, but has to stand after transaction 2 all the same.
pub const IDLE_WRITE_STANDS_LATER: &str = r#"{"format":1,"logs":1,"objects":1}
{"kind":"register","name":"x","open":5}
{"arg":5,"at":0,"ev":"inv","log":0,"ob":"x","op":"write","stamp":0,"tx":1}
{"arg":7,"at":1,"ev":"inv","log":0,"ob":"x","op":"write","stamp":1,"tx":2}
{"ans":"done","at":2,"ev":"ret","log":0,"ob":"x","op":"write","stamp":2,"tx":2}
{"at":3,"ev":"tryc","log":0,"stamp":3,"tx":2}
{"at":4,"ev":"commit","log":0,"stamp":4,"tx":2}
{"at":5,"ev":"inv","log":0,"ob":"x","op":"read","stamp":5,"tx":3}
{"ans":5,"at":6,"ev":"ret","log":0,"ob":"x","op":"read","stamp":6,"tx":3}
{"at":7,"ev":"tryc","log":0,"stamp":7,"tx":3}
{"at":8,"ev":"commit","log":0,"stamp":8,"tx":3}
{"ans":"done","at":9,"ev":"ret","log":0,"ob":"x","op":"write","stamp":9,"tx":1}
{"at":10,"ev":"tryc","log":0,"stamp":10,"tx":1}
{"at":11,"ev":"commit","log":0,"stamp":11,"tx":1}
{"end":12,"log":0}
"#;

/// Transaction 2 sees the count of commit-pending transaction 1, and transaction 3 after it does not.
pub const COUNT_IS_LOST: &str = r#"{"format":1,"logs":1,"objects":1}
{"kind":"counter","name":"c","open":0}
{"at":0,"ev":"inv","log":0,"ob":"c","op":"inc","stamp":0,"tx":1}
{"ans":"done","at":1,"ev":"ret","log":0,"ob":"c","op":"inc","stamp":1,"tx":1}
{"at":2,"ev":"tryc","log":0,"stamp":2,"tx":1}
{"at":3,"ev":"inv","log":0,"ob":"c","op":"get","stamp":3,"tx":2}
{"ans":1,"at":4,"ev":"ret","log":0,"ob":"c","op":"get","stamp":4,"tx":2}
{"at":5,"ev":"tryc","log":0,"stamp":5,"tx":2}
{"at":6,"ev":"commit","log":0,"stamp":6,"tx":2}
{"at":7,"ev":"inv","log":0,"ob":"c","op":"get","stamp":7,"tx":3}
{"ans":0,"at":8,"ev":"ret","log":0,"ob":"c","op":"get","stamp":8,"tx":3}
{"at":9,"ev":"tryc","log":0,"stamp":9,"tx":3}
{"at":10,"ev":"commit","log":0,"stamp":10,"tx":3}
{"end":11,"log":0}
"#;

/// Transactions 1 and 2 both find 3 absent; transaction 2 aborts.
pub const BOTH_FIND_IT_ABSENT: &str = r#"{"format":1,"logs":1,"objects":1}
{"kind":"set","name":"s"}
{"arg":3,"at":0,"ev":"inv","log":0,"ob":"s","op":"add","stamp":0,"tx":1}
{"ans":true,"at":1,"ev":"ret","log":0,"ob":"s","op":"add","stamp":1,"tx":1}
{"arg":3,"at":2,"ev":"inv","log":0,"ob":"s","op":"add","stamp":2,"tx":2}
{"ans":true,"at":3,"ev":"ret","log":0,"ob":"s","op":"add","stamp":3,"tx":2}
{"at":4,"ev":"tryc","log":0,"stamp":4,"tx":1}
{"at":5,"ev":"commit","log":0,"stamp":5,"tx":1}
{"at":6,"ev":"tryc","log":0,"stamp":6,"tx":2}
{"at":7,"ev":"abort","log":0,"stamp":7,"tx":2}
{"end":8,"log":0}
"#;

/// Transaction 1 reads 0 while 2 reads 1, which nobody wrote.
pub const READ_OF_NOTHING: &str = r#"{"format":1,"logs":1,"objects":1}
{"kind":"register","name":"x","open":0}
{"at":0,"ev":"inv","log":0,"ob":"x","op":"read","stamp":0,"tx":1}
{"at":1,"ev":"inv","log":0,"ob":"x","op":"read","stamp":1,"tx":2}
{"ans":1,"at":2,"ev":"ret","log":0,"ob":"x","op":"read","stamp":2,"tx":2}
{"ans":0,"at":3,"ev":"ret","log":0,"ob":"x","op":"read","stamp":3,"tx":1}
{"at":4,"ev":"tryc","log":0,"stamp":4,"tx":1}
{"at":5,"ev":"commit","log":0,"stamp":5,"tx":1}
{"at":6,"ev":"tryc","log":0,"stamp":6,"tx":2}
{"at":7,"ev":"commit","log":0,"stamp":7,"tx":2}
{"end":8,"log":0}
"#;

/// Transactions 1 and 2 count one each while 3 gets 3.
pub const BAD_COUNT: &str = r#"{"format":1,"logs":1,"objects":1}
{"kind":"counter","name":"c","open":0}
{"at":0,"ev":"inv","log":0,"ob":"c","op":"inc","stamp":0,"tx":1}
{"at":1,"ev":"inv","log":0,"ob":"c","op":"inc","stamp":1,"tx":2}
{"at":2,"ev":"inv","log":0,"ob":"c","op":"get","stamp":2,"tx":3}
{"ans":3,"at":3,"ev":"ret","log":0,"ob":"c","op":"get","stamp":3,"tx":3}
{"at":4,"ev":"tryc","log":0,"stamp":4,"tx":3}
{"at":5,"ev":"commit","log":0,"stamp":5,"tx":3}
{"ans":"done","at":6,"ev":"ret","log":0,"ob":"c","op":"inc","stamp":6,"tx":1}
{"at":7,"ev":"tryc","log":0,"stamp":7,"tx":1}
{"at":8,"ev":"commit","log":0,"stamp":8,"tx":1}
{"ans":"done","at":9,"ev":"ret","log":0,"ob":"c","op":"inc","stamp":9,"tx":2}
{"at":10,"ev":"tryc","log":0,"stamp":10,"tx":2}
{"at":11,"ev":"commit","log":0,"stamp":11,"tx":2}
{"end":12,"log":0}
"#;

/// Transactions 1 to 4 count one each while 5 gets 5, which is never reached.
pub const FIVE_COUNTERS: &str = r#"{"format":1,"logs":1,"objects":1}
{"kind":"counter","name":"c","open":0}
{"at":0,"ev":"inv","log":0,"ob":"c","op":"inc","stamp":0,"tx":1}
{"at":1,"ev":"inv","log":0,"ob":"c","op":"inc","stamp":1,"tx":2}
{"at":2,"ev":"inv","log":0,"ob":"c","op":"inc","stamp":2,"tx":3}
{"at":3,"ev":"inv","log":0,"ob":"c","op":"inc","stamp":3,"tx":4}
{"at":4,"ev":"inv","log":0,"ob":"c","op":"get","stamp":4,"tx":5}
{"ans":"done","at":5,"ev":"ret","log":0,"ob":"c","op":"inc","stamp":5,"tx":1}
{"ans":"done","at":6,"ev":"ret","log":0,"ob":"c","op":"inc","stamp":6,"tx":2}
{"ans":"done","at":7,"ev":"ret","log":0,"ob":"c","op":"inc","stamp":7,"tx":3}
{"ans":"done","at":8,"ev":"ret","log":0,"ob":"c","op":"inc","stamp":8,"tx":4}
{"ans":5,"at":9,"ev":"ret","log":0,"ob":"c","op":"get","stamp":9,"tx":5}
{"at":10,"ev":"tryc","log":0,"stamp":10,"tx":1}
{"at":11,"ev":"commit","log":0,"stamp":11,"tx":1}
{"at":12,"ev":"tryc","log":0,"stamp":12,"tx":2}
{"at":13,"ev":"commit","log":0,"stamp":13,"tx":2}
{"at":14,"ev":"tryc","log":0,"stamp":14,"tx":3}
{"at":15,"ev":"commit","log":0,"stamp":15,"tx":3}
{"at":16,"ev":"tryc","log":0,"stamp":16,"tx":4}
{"at":17,"ev":"commit","log":0,"stamp":17,"tx":4}
{"at":18,"ev":"tryc","log":0,"stamp":18,"tx":5}
{"at":19,"ev":"commit","log":0,"stamp":19,"tx":5}
{"end":20,"log":0}
"#;

/// Transactions 1 to 8 count two each while 9 gets 9, which is odd and never reached.
pub const NINE_COUNTERS: &str = r#"{"format":1,"logs":1,"objects":1}
{"kind":"counter","name":"c","open":0}
{"at":0,"ev":"inv","log":0,"ob":"c","op":"inc","stamp":0,"tx":1}
{"at":1,"ev":"inv","log":0,"ob":"c","op":"inc","stamp":1,"tx":2}
{"at":2,"ev":"inv","log":0,"ob":"c","op":"inc","stamp":2,"tx":3}
{"at":3,"ev":"inv","log":0,"ob":"c","op":"inc","stamp":3,"tx":4}
{"at":4,"ev":"inv","log":0,"ob":"c","op":"inc","stamp":4,"tx":5}
{"at":5,"ev":"inv","log":0,"ob":"c","op":"inc","stamp":5,"tx":6}
{"at":6,"ev":"inv","log":0,"ob":"c","op":"inc","stamp":6,"tx":7}
{"at":7,"ev":"inv","log":0,"ob":"c","op":"inc","stamp":7,"tx":8}
{"at":8,"ev":"inv","log":0,"ob":"c","op":"get","stamp":8,"tx":9}
{"ans":"done","at":9,"ev":"ret","log":0,"ob":"c","op":"inc","stamp":9,"tx":1}
{"ans":"done","at":10,"ev":"ret","log":0,"ob":"c","op":"inc","stamp":10,"tx":2}
{"ans":"done","at":11,"ev":"ret","log":0,"ob":"c","op":"inc","stamp":11,"tx":3}
{"ans":"done","at":12,"ev":"ret","log":0,"ob":"c","op":"inc","stamp":12,"tx":4}
{"ans":"done","at":13,"ev":"ret","log":0,"ob":"c","op":"inc","stamp":13,"tx":5}
{"ans":"done","at":14,"ev":"ret","log":0,"ob":"c","op":"inc","stamp":14,"tx":6}
{"ans":"done","at":15,"ev":"ret","log":0,"ob":"c","op":"inc","stamp":15,"tx":7}
{"ans":"done","at":16,"ev":"ret","log":0,"ob":"c","op":"inc","stamp":16,"tx":8}
{"ans":9,"at":17,"ev":"ret","log":0,"ob":"c","op":"get","stamp":17,"tx":9}
{"at":18,"ev":"inv","log":0,"ob":"c","op":"inc","stamp":18,"tx":1}
{"at":19,"ev":"inv","log":0,"ob":"c","op":"inc","stamp":19,"tx":2}
{"at":20,"ev":"inv","log":0,"ob":"c","op":"inc","stamp":20,"tx":3}
{"at":21,"ev":"inv","log":0,"ob":"c","op":"inc","stamp":21,"tx":4}
{"at":22,"ev":"inv","log":0,"ob":"c","op":"inc","stamp":22,"tx":5}
{"at":23,"ev":"inv","log":0,"ob":"c","op":"inc","stamp":23,"tx":6}
{"at":24,"ev":"inv","log":0,"ob":"c","op":"inc","stamp":24,"tx":7}
{"at":25,"ev":"inv","log":0,"ob":"c","op":"inc","stamp":25,"tx":8}
{"ans":"done","at":26,"ev":"ret","log":0,"ob":"c","op":"inc","stamp":26,"tx":1}
{"ans":"done","at":27,"ev":"ret","log":0,"ob":"c","op":"inc","stamp":27,"tx":2}
{"ans":"done","at":28,"ev":"ret","log":0,"ob":"c","op":"inc","stamp":28,"tx":3}
{"ans":"done","at":29,"ev":"ret","log":0,"ob":"c","op":"inc","stamp":29,"tx":4}
{"ans":"done","at":30,"ev":"ret","log":0,"ob":"c","op":"inc","stamp":30,"tx":5}
{"ans":"done","at":31,"ev":"ret","log":0,"ob":"c","op":"inc","stamp":31,"tx":6}
{"ans":"done","at":32,"ev":"ret","log":0,"ob":"c","op":"inc","stamp":32,"tx":7}
{"ans":"done","at":33,"ev":"ret","log":0,"ob":"c","op":"inc","stamp":33,"tx":8}
{"at":34,"ev":"tryc","log":0,"stamp":34,"tx":1}
{"at":35,"ev":"commit","log":0,"stamp":35,"tx":1}
{"at":36,"ev":"tryc","log":0,"stamp":36,"tx":2}
{"at":37,"ev":"commit","log":0,"stamp":37,"tx":2}
{"at":38,"ev":"tryc","log":0,"stamp":38,"tx":3}
{"at":39,"ev":"commit","log":0,"stamp":39,"tx":3}
{"at":40,"ev":"tryc","log":0,"stamp":40,"tx":4}
{"at":41,"ev":"commit","log":0,"stamp":41,"tx":4}
{"at":42,"ev":"tryc","log":0,"stamp":42,"tx":5}
{"at":43,"ev":"commit","log":0,"stamp":43,"tx":5}
{"at":44,"ev":"tryc","log":0,"stamp":44,"tx":6}
{"at":45,"ev":"commit","log":0,"stamp":45,"tx":6}
{"at":46,"ev":"tryc","log":0,"stamp":46,"tx":7}
{"at":47,"ev":"commit","log":0,"stamp":47,"tx":7}
{"at":48,"ev":"tryc","log":0,"stamp":48,"tx":8}
{"at":49,"ev":"commit","log":0,"stamp":49,"tx":8}
{"at":50,"ev":"tryc","log":0,"stamp":50,"tx":9}
{"at":51,"ev":"commit","log":0,"stamp":51,"tx":9}
{"end":52,"log":0}
"#;

/// An answer that nobody asked for: this history is not well-formed.
pub const ANSWER_UNASKED: &str = r#"{"format":1,"logs":1,"objects":1}
{"kind":"register","name":"x","open":0}
{"ans":0,"at":0,"ev":"ret","log":0,"ob":"x","op":"read","stamp":0,"tx":1}
{"end":1,"log":0}
"#;

/// Transaction 1 aborts with nothing pending: this history is not well-formed.
pub const ABORT_WHILE_IDLE: &str = r#"{"format":1,"logs":1,"objects":1}
{"kind":"register","name":"x","open":0}
{"arg":1,"at":0,"ev":"inv","log":0,"ob":"x","op":"write","stamp":0,"tx":1}
{"ans":"done","at":1,"ev":"ret","log":0,"ob":"x","op":"write","stamp":1,"tx":1}
{"at":2,"ev":"abort","log":0,"stamp":2,"tx":1}
{"end":3,"log":0}
"#;

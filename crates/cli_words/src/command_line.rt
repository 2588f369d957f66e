//! The program's words, with the texts that explain them.

ghost use Rattle.std.specs.Prelude.{◌≡◌, IfOk, false};
ghost use Rattle.clap.specs.Words.{app_of, new_app, rule_of, with_rule, with_subcommand};
ghost use Rattle.clap.specs.declared.builder.command.Command.TheViews.{out-Command as fields_of};
ghost use Rattle.cli_words.specs.CommandLine.{audit_app, bare_app, check_app, confirm_app, decide_app, refute_app, verified_app, verify_app, flag_rule, lines_app, needed_rule, opaq_app, value_rule};

use clap::{Arg, ArgAction, Command};
use std::alloc::{AllocError, Global};

/// The version, and the logic whose checker proved this program. It is the last word of what `rt version` prints: kits that differ
/// in other things share it.
const VERSION: &str = "0.1.0, proved with Rattle logic dac8208d650f15bf";

const ABOUT: &str =
    "Says whether a run of a transactional memory was opaque, from its stamped records";

const AFTER: &str =
    r#"Standard input is the plan of the run, then its records and an end mark for each log, a JSON value a line,
and for verify a certificate after them, for confirm a refutation. One line of output says what was found (decide --cert adds a
certificate, refute a refutation), and so does the exit status:
  0  opaque
  1  not opaque
  2  unfinished
  3  the input, the history, the order, the certificate or the refutation is refused; the line says why
  4  out of memory, or input or output failed, or a node had no place for a reader; standard error says which
  64 these words are not understood, or a text as this one was asked for

Documents, with the sources: docs/RECORDING.md (how to record a run), docs/OUTPUT.md (each line), docs/FAULTS.md (what is
refused, and what to do), docs/STORY.md (why a run is not opaque).

Example: transaction 1 writes 1 to x and commits, and after it transaction 2 reads x. The file run.jsonl:

  {"format":1,"logs":1,"objects":1}
  {"kind":"register","name":"x","open":0}
  {"arg":1,"at":0,"ev":"inv","log":0,"ob":"x","op":"write","stamp":0,"tx":1}
  {"ans":"done","at":1,"ev":"ret","log":0,"ob":"x","op":"write","stamp":1,"tx":1}
  {"at":2,"ev":"tryc","log":0,"stamp":2,"tx":1}
  {"at":3,"ev":"commit","log":0,"stamp":3,"tx":1}
  {"at":4,"ev":"inv","log":0,"ob":"x","op":"read","stamp":4,"tx":2}
  {"ans":1,"at":5,"ev":"ret","log":0,"ob":"x","op":"read","stamp":5,"tx":2}
  {"at":6,"ev":"tryc","log":0,"stamp":6,"tx":2}
  {"at":7,"ev":"commit","log":0,"stamp":7,"tx":2}
  {"end":8,"log":0}

  $ opaq decide < run.jsonl
  opaque 1c 2c"#;

const CHECK_ABOUT: &str = "Says whether a given order of the transactions shows the run opaque";

const CHECK_AFTER: &str =
    "The order names each transaction once, in a serial order, by its number and its fate: c where it
commits, a where it aborts, as in '1c 2a'. An empty run has the order 'none'.

Example: opaq check --order '1c 2c' < run.jsonl, with the file of opaq --help

  $ opaq check --order '1c 2c' < run.jsonl
  opaque 1c 2c

  $ opaq check --order '2c 1c' < run.jsonl
  order refused 4 tx 2

Fault 4: transaction 2 stands before 1, which was completed before 2 began.";

const DECIDE_ABOUT: &str = "Says whether any order of the transactions shows the run opaque";

const DECIDE_AFTER: &str =
    r#"Where the run is opaque the line has an order that shows it. With a budget the search gives up after
so many expanded beginnings of orders, and says 'unfinished'; a number up to 1,000,000,000,000. With --cert
the lines of a certificate follow 'not opaque', for 'opaq verify'; it is made without a budget. Of a run of many
threads it may be long, or never end: then 'opaq refute' says why.

Example: opaq decide < run.jsonl, with the file of opaq --help

  $ opaq decide < run.jsonl
  opaque 1c 2c

  $ opaq decide --budget 0 < run.jsonl
  unfinished

If transaction 2 reads 0, which was overwritten before it began, no order shows the run:

  $ sed 's/"ans":1/"ans":0/' run.jsonl | opaq decide --cert
  not opaque
  {"cert":2}
  {"by":"kids","p":"1c"}
  {"by":"kids","p":"none"}"#;

const VERIFY_ABOUT: &str = "Says whether a certificate after the records shows that no order does";

const VERIFY_AFTER: &str =
    r#"Standard input is the plan, the records, and then the lines of a certificate, as 'opaq decide --cert' writes
them after 'not opaque'. A line says of one beginning of orders why no order that begins so shows the run, by the
lines before it; the last says so of all orders. Nothing of it is trusted: the line is 'not opaque' where all of the
certificate holds, and else 'certificate refused', which says nothing of the run.

Example: the file of opaq --help, but transaction 2 reads 0, which was overwritten before it began

  $ sed 's/"ans":1/"ans":0/' run.jsonl > stale.jsonl
  $ opaq decide --cert < stale.jsonl > found
  $ sed 1d found
  {"cert":2}
  {"by":"kids","p":"1c"}
  {"by":"kids","p":"none"}
  $ sed 1d found | cat stale.jsonl - | opaq verify
  not opaque

After 1 transaction 2 cannot read 0, and it cannot come first. Without the line of '1c':

  $ { cat stale.jsonl; echo '{"cert":1}'; echo '{"by":"kids","p":"none"}'; } | opaq verify
  certificate refused"#;

const REFUTE_ABOUT: &str = "Says why no order of the transactions shows the run opaque";

const REFUTE_AFTER: &str =
    r#"Where no order shows the run the line is 'not opaque', and the lines of a refutation follow, for 'opaq confirm': clauses
on which transaction stands before which, each with the law that it follows from. Where the run is opaque the line has
an order that shows it. The line is 'unfinished' where clause learning does not tell within some minutes.

Example: the file of opaq --help, but transaction 2 reads 0, which was overwritten before it began

  $ sed 's/"ans":1/"ans":0/' run.jsonl > stale.jsonl
  $ opaq refute < stale.jsonl
  not opaque
  {"refutation":1}
  {"by":["sources",2,"x"],"c":[]}

Nobody left 0 in x where transaction 2 may have read it: 1 ended before 2 began, and x opened before 1."#;

const CONFIRM_ABOUT: &str = "Says whether a refutation after the records shows that no order does";

const CONFIRM_AFTER: &str =
    r#"Standard input is the plan, the records, and then the lines of a refutation, as 'opaq refute' writes them after
'not opaque'. Nothing of it is trusted: the line is 'not opaque' where each step follows, and else 'refutation line N
refused' with the first line that does not, which says nothing of the run.

Example: the file of opaq --help, but transaction 2 reads 0, which was overwritten before it began

  $ sed 's/"ans":1/"ans":0/' run.jsonl > stale.jsonl
  $ opaq refute < stale.jsonl | sed 1d | cat stale.jsonl - | opaq confirm
  not opaque
  $ opaq refute < stale.jsonl | sed 1d | cat run.jsonl - | opaq confirm
  refutation line 13 refused"#;

const AUDIT_ABOUT: &str =
    "Says whether any order shows the run opaque, by workers that search side by side";

const AUDIT_AFTER: &str =
    r#"The records are shared out among the nodes, 1 to 8, which tell each other what they have. Then the workers of
all nodes, 1 to 16 of each, search side by side, each of them one beginning of orders after another, and the nodes
tell each other what was found. Where the run is opaque the line has an order that shows it. With a budget the search
of each beginning gives up after so many expanded beginnings, and the line is 'unfinished' where what was found does
not say; a number up to 1,000,000,000,000. Without one the line is then what 'opaq decide' says.

Example: opaq audit --nodes 2 --workers 2 < run.jsonl, with the file of opaq --help

  $ opaq audit --nodes 2 --workers 2 < run.jsonl
  opaque 1c 2c

If transaction 2 reads 0, which was overwritten before it began, no order shows the run:

  $ sed 's/"ans":1/"ans":0/' run.jsonl | opaq audit --nodes 2 --workers 2
  not opaque"#;

fn value_arg<'a>(alloc: Global, name: &'a str, value_name: &'a str, help: &'a str) -> Arg<'a>
    ensures rule { rule_of result ≡ value_rule name.entry.now }
    ensures local { result.global ≡ false }
{
    Arg::new(alloc, name)
        .long(name)
        .value_name(value_name)
        .help(help)
        .action(ArgAction::Set)
}

fn flag_arg<'a>(alloc: Global, name: &'a str, help: &'a str) -> Arg<'a>
    ensures rule { rule_of result ≡ flag_rule name.entry.now }
    ensures local { result.global ≡ false }
{
    Arg::new(alloc, name)
        .long(name)
        .help(help)
        .action(ArgAction::SetTrue)
}

fn needed_arg<'a>(alloc: Global, name: &'a str, value_name: &'a str, help: &'a str) -> Arg<'a>
    ensures rule { rule_of result ≡ needed_rule name.entry.now }
    ensures local { result.global ≡ false }
{
    Arg::new(alloc, name)
        .long(name)
        .value_name(value_name)
        .help(help)
        .required(true)
        .action(ArgAction::Set)
}

/// A subcommand without options, with its texts.
fn named<'a>(alloc: Global, name: &'a str, about: &'a str, after: &'a str) -> Command<'a>
    ensures app { app_of result ≡ new_app name.entry.now }
    ensures local { (fields_of result).has_globals ≡ false }
{
    Command::new(alloc, name).about(about).after_help(after)
}

/// The subcommand with an option more.
fn with_arg<'a>(command: Command<'a>, arg: Arg<'a>) -> Result<Command<'a>, AllocError>
    requires { arg.global ≡ false }
    ensures app { IfOk result (λ c. app_of c ≡ with_rule (app_of command.entry) (rule_of arg.entry)) }
    ensures local { IfOk result (λ c. (fields_of c).has_globals ≡ (fields_of command.entry).has_globals) }
{
    command.arg(arg)
}

fn check_command<'a>(alloc: Global) -> Result<Command<'a>, AllocError>
    ensures app { IfOk result (λ c. app_of c ≡ check_app) }
    ensures local { IfOk result (λ c. (fields_of c).has_globals ≡ false) }
{
    let order = needed_arg(alloc, "order", "TEXT", "The order, as in '1c 2a'");
    with_arg(named(alloc, "check", CHECK_ABOUT, CHECK_AFTER), order)
}

fn decide_command<'a>(alloc: Global) -> Result<Command<'a>, AllocError>
    ensures app { IfOk result (λ c. app_of c ≡ decide_app) }
    ensures local { IfOk result (λ c. (fields_of c).has_globals ≡ false) }
{
    let command = named(alloc, "decide", DECIDE_ABOUT, DECIDE_AFTER);
    let budget = value_arg(
        alloc,
        "budget",
        "N",
        "How many beginnings of orders are expanded at most",
    );
    let command = with_arg(command, budget)?;
    let cert = flag_arg(alloc, "cert", "Where no order does, adds a certificate");
    with_arg(command, cert)
}

fn verify_command<'a>(alloc: Global) -> Command<'a>
    ensures app { app_of result ≡ verify_app }
    ensures local { (fields_of result).has_globals ≡ false }
{
    named(alloc, "verify", VERIFY_ABOUT, VERIFY_AFTER)
}

fn refute_command<'a>(alloc: Global) -> Command<'a>
    ensures app { app_of result ≡ refute_app }
    ensures local { (fields_of result).has_globals ≡ false }
{
    named(alloc, "refute", REFUTE_ABOUT, REFUTE_AFTER)
}

fn confirm_command<'a>(alloc: Global) -> Command<'a>
    ensures app { app_of result ≡ confirm_app }
    ensures local { (fields_of result).has_globals ≡ false }
{
    named(alloc, "confirm", CONFIRM_ABOUT, CONFIRM_AFTER)
}

fn audit_command<'a>(alloc: Global) -> Result<Command<'a>, AllocError>
    ensures app { IfOk result (λ c. app_of c ≡ audit_app) }
    ensures local { IfOk result (λ c. (fields_of c).has_globals ≡ false) }
{
    let command = named(alloc, "audit", AUDIT_ABOUT, AUDIT_AFTER);
    let nodes = needed_arg(alloc, "nodes", "N", "How many nodes there are");
    let command = with_arg(command, nodes)?;
    let workers = needed_arg(alloc, "workers", "W", "How many workers each node has");
    let command = with_arg(command, workers)?;
    let budget = value_arg(
        alloc,
        "budget",
        "B",
        "How many beginnings of orders each search expands at most",
    );
    with_arg(command, budget)
}

fn bare_command<'a>(alloc: Global) -> Command<'a>
    ensures { app_of result ≡ bare_app }
{
    Command::new(alloc, "opaq")
        .version(VERSION)
        .about(ABOUT)
        .after_help(AFTER)
        .subcommand_required(true)
        .arg_required_else_help(true)
}

/// The command line with `check` alone.
fn check_alone<'a>(alloc: Global) -> Result<Command<'a>, AllocError>
    ensures { IfOk result (λ c. app_of c ≡ with_subcommand bare_app check_app.top) }
{
    let check = check_command(alloc)?;
    bare_command(alloc).subcommand(check)
}

/// The command line with `check` and `decide`.
fn check_and_decide<'a>(alloc: Global) -> Result<Command<'a>, AllocError>
    ensures { IfOk result (λ c. app_of c ≡ with_subcommand (with_subcommand bare_app check_app.top) decide_app.top) }
{
    let decide = decide_command(alloc)?;
    check_alone(alloc)?.subcommand(decide)
}

/// The command line up to `verify`.
fn up_to_verify<'a>(alloc: Global) -> Result<Command<'a>, AllocError>
    ensures { IfOk result (λ c. app_of c ≡ verified_app) }
{
    check_and_decide(alloc)?.subcommand(verify_command(alloc))
}

/// The command line up to `refute`.
fn up_to_refute<'a>(alloc: Global) -> Result<Command<'a>, AllocError>
    ensures { IfOk result (λ c. app_of c ≡ with_subcommand verified_app refute_app.top) }
{
    up_to_verify(alloc)?.subcommand(refute_command(alloc))
}

/// The command line without `audit`.
fn lines_commands<'a>(alloc: Global) -> Result<Command<'a>, AllocError>
    ensures { IfOk result (λ c. app_of c ≡ lines_app) }
{
    up_to_refute(alloc)?.subcommand(confirm_command(alloc))
}

/// The program's command line.
pub(crate) fn opaq_command<'a>(alloc: Global) -> Result<Command<'a>, AllocError>
    ensures { IfOk result (λ c. app_of c ≡ opaq_app) }
{
    let audit = audit_command(alloc)?;
    lines_commands(alloc)?.subcommand(audit)
}

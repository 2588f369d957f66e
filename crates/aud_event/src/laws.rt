//! Laws of the definitions. Each function does nothing: its contract is the law.

ghost use Rattle.std.specs.Prelude.{◌≡◌, List, ℕ, Some, is_some};
ghost use Rattle.aud_event.specs.declared.limits.TheConstants.{LOGS_MAX, OBJECTS_MAX, NAME_MAX, PLACES, STAMPS, TRANSACTIONS_ONE, TRANSACTIONS, COUNTER_MIN, COUNTER_MAX, LEAST_ADDEND, GREATEST_ADDEND};
ghost use Rattle.aud_event.specs.declared.signature.Format.TheVariants.{One, Two};
ghost use Rattle.aud_event.specs.Limits.{most_logs, most_objects, longest_name, places, stamps, transactions, most_transactions, least_opening, greatest_opening, least_addend, greatest_addend};
ghost use Rattle.aud_event.specs.declared.object.OpName.{OpName};
ghost use Rattle.aud_event.specs.declared.object.ObjKind.{ObjKind};
ghost use Rattle.aud_event.specs.declared.object.Op.{Op};
ghost use Rattle.aud_event.specs.declared.signature.Args.{Args};
ghost use Rattle.aud_event.specs.Laws.{NumberIsOwn, NumberedIsThere, NoFormatHasMore};
ghost use Rattle.aud_event.specs.Objects.{name_of, args_of, op_with, signature_of, takes_kind, word_of_op, op_of_word, word_of_kind, kind_of_word};

/// The constants of the code are the limits of the definitions, which are figures.
pub fn limits_are_the_format()
    ensures logs { LOGS_MAX ≡ most_logs }
    ensures objects { OBJECTS_MAX ≡ most_objects }
    ensures names { NAME_MAX ≡ longest_name }
    ensures at { PLACES ≡ places }
    ensures stamps { STAMPS ≡ stamps }
    ensures transactions { TRANSACTIONS_ONE ≡ transactions One }
    ensures transactions_two { TRANSACTIONS ≡ transactions Two }
    ensures most_transactions { TRANSACTIONS ≡ most_transactions }
    ensures least { COUNTER_MIN ≡ least_opening }
    ensures greatest { COUNTER_MAX ≡ greatest_opening }
    ensures least_addend { LEAST_ADDEND ≡ least_addend }
    ensures greatest_addend { GREATEST_ADDEND ≡ greatest_addend }
{}

/// In a list of objects with different names, each is found by its name at its own number.
pub fn number_is_own()
    ensures { NumberIsOwn }
{}

/// What a name's number leads to is an object of that name.
pub fn numbered_is_there()
    ensures { NumberedIsThere }
{}

/// A word reads as what it is the word of, and no other text does.
pub fn words_read_back()
    ensures ops { (o : OpName) → op_of_word (word_of_op o) ≡ Some o }
    ensures no_other_op { (w : List ℕ) (o : OpName) → op_of_word w ≡ Some o → w ≡ word_of_op o }
    ensures kinds { (k : ObjKind) → kind_of_word (word_of_kind k) ≡ Some k }
    ensures no_other_kind { (w : List ℕ) (k : ObjKind) → kind_of_word w ≡ Some k → w ≡ word_of_kind k }
{}

/// An operation is its name with its arguments, and a name makes an operation of what its row takes, and of nothing else.
pub fn operations_are_names_with_arguments()
    ensures again { (o : Op) → op_with (name_of o) (args_of o) ≡ Some o }
    ensures name { (n : OpName) (a : Args) (o : Op) → op_with n a ≡ Some o → name_of o ≡ n }
    ensures args { (n : OpName) (a : Args) (o : Op) → op_with n a ≡ Some o → args_of o ≡ a }
    ensures takes { (n : OpName) (a : Args) → is_some (op_with n a) ≡ takes_kind (signature_of n).takes a }
{}

/// What a plan of the first format allows, the second allows too.
pub fn no_format_has_more()
    ensures { NoFormatHasMore }
{}

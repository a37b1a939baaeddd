//! Laws of the definitions that printing rests on. The functions do nothing; their contracts are the laws.
ghost use Rattle.std.specs.Prelude.{◌≡◌};
ghost use Rattle.tsdb_model.specs.Commands.{IsWellFormed};
ghost use Rattle.tsdb_model.specs.History.{IsAllowed};
ghost use Rattle.tsdb_model.specs.State.{State};
ghost use Rattle.tsdb_model.specs.declared.command.Command.{Command};
ghost use Rattle.tsdb_model.specs.declared.reply.Reply.{Reply};
ghost use Rattle.tsdb_print.specs.Alike.{IsReplyInRange, as_printed};
ghost use Rattle.tsdb_print.specs.Text.{reply_text};

/// Two replies that a command may have, each in some state, print alike exactly where they show the same. They show
/// the same where they are the same but for the counter of `full`, the width of whole numbers, among which are sums, and
/// the order of files of different spaces in a listing.
pub fn replies_that_print_alike()
    ensures apart { (command : Command) (a b : Reply) (state other : State) → IsWellFormed command
        → IsAllowed state command a → IsAllowed other command b → IsReplyInRange a → IsReplyInRange b
        → reply_text command a ≡ reply_text command b → as_printed a ≡ as_printed b }
    ensures alike { (command : Command) (a b : Reply) → as_printed a ≡ as_printed b
        → reply_text command a ≡ reply_text command b }
{}

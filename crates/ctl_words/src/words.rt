/// What a command line asks for.
#[derive(Drop)]
pub struct CtlWords<'a> {
    /// The path of the control socket, if the line gives one.
    pub control: Option<&'a str>,
    /// How many seconds to wait for a server, if the line says so.
    pub patience: Option<u64>,
    pub colour: Colour,
    /// How many columns a table may have, if the line says so: 40 to 1,000.
    pub width: Option<u64>,
    pub task: Task<'a>,
}

/// Whether colours are printed.
#[derive(Clone, Copy)]
pub enum Colour {
    /// On a terminal, unless the environment says otherwise.
    Auto,
    Always,
    Never,
}

/// The task of a command line.
#[derive(Drop)]
pub enum Task<'a> {
    /// Send the commands of the standard input.
    Input,
    /// Send one command, in the server's form.
    Command(String),
    Status(StatusWords),
    /// Say in one line whether somebody has to look at the station.
    Check,
    Follow(FollowWords<'a>),
    /// Show the files that wait in the outbox.
    Outbox(OutboxWords),
    Send(SendWords<'a>),
    /// Send the files that come into a folder.
    Watch(WatchWords<'a>),
    /// Print a transaction as a script.
    Journal(TransactionWord),
    /// Print the transactions of logs that ended.
    History(HistoryWords<'a>),
    /// Give a command for one transaction or for several.
    Act(ActWords<'a>),
    /// Open and hold links by a plan.
    Windows(WindowsWords<'a>),
    /// Send the file of a transaction again.
    Resend(ResendWords<'a>),
}

/// How the status is shown.
#[derive(Clone, Copy)]
pub struct StatusWords {
    /// Whether the lines are printed as they are sent.
    pub json: bool,
    /// Whether it is shown again each second.
    pub watch: bool,
    /// Whether only transactions that failed are shown.
    pub failed: bool,
    /// The entity at the other end, if only what goes there or comes from there is shown.
    pub remote: Option<u64>,
}

/// Which events are followed, and how they are printed.
#[derive(Clone, Copy)]
pub struct FollowWords<'a> {
    /// Whether the events are printed as they are sent.
    pub json: bool,
    pub user: Option<&'a str>,
    pub transaction: Option<TransactionWord>,
    /// How many of the last events come first, if the line says so: up to 1,024.
    pub last: Option<u64>,
    /// The lowest level of the events that are followed, if not all are: `detail`, `info` or `warning`.
    pub level: Option<&'a str>,
    /// Whether the next server is followed after this one.
    pub again: bool,
}

/// A transaction ID.
#[derive(Clone, Copy)]
pub struct TransactionWord {
    pub source: u64,
    pub seq: u64,
}

/// How the outbox is shown.
#[derive(Clone, Copy)]
pub struct OutboxWords {
    /// Whether the lines are printed as they are sent.
    pub json: bool,
}

/// Which files are sent, and how.
#[derive(Drop)]
pub struct SendWords<'a> {
    /// The entity that receives the files.
    pub remote: u64,
    /// The user whose files they are, if the line says so.
    pub user: Option<&'a str>,
    /// 1 or 2.
    pub class: u64,
    /// Whether the receiver is asked to report at the end what became of a file, in class 1 too.
    pub is_closed: bool,
    /// Whether the files go before those of the user that aren't urgent.
    pub is_urgent: bool,
    /// A folder at the receiver.
    pub into: Option<&'a str>,
    /// Whether to wait for the end of each file.
    pub wait: bool,
    /// How often a file that didn't arrive is sent again, up to 1,000.
    pub retries: u64,
    /// Whether a folder stands for its files.
    pub recursive: bool,
    /// The paths of the files: one or more.
    pub files: Vec<&'a str>,
}

/// Which folder is watched, and how its files are sent.
#[derive(Clone, Copy)]
pub struct WatchWords<'a> {
    /// The path of the folder.
    pub folder: &'a str,
    /// The entity that receives the files.
    pub remote: u64,
    /// The user whose files they are, if the line says so.
    pub user: Option<&'a str>,
    /// 1 or 2.
    pub class: u64,
    /// A folder at the receiver.
    pub into: Option<&'a str>,
    /// Whether to end once no file is left to send.
    pub once: bool,
    /// Whether a file that has arrived is deleted at last.
    pub delete: bool,
}

/// Which transactions of logs are printed, and how.
#[derive(Drop)]
pub struct HistoryWords<'a> {
    /// Whether they are printed as JSON.
    pub json: bool,
    /// A moment or its beginning, if only those that ended since then are printed.
    pub since: Option<&'a str>,
    /// The entity at the other end, if only those with this one are printed.
    pub remote: Option<u64>,
    /// Whether only those that failed are printed.
    pub failed: bool,
    /// The paths of the logs: one or more.
    pub logs: Vec<&'a str>,
}

/// By which plan links are opened and held.
#[derive(Clone, Copy)]
pub struct WindowsWords<'a> {
    /// The path of the plan.
    pub plan: &'a str,
    /// Whether the plan is only read and shown.
    pub check: bool,
}

/// Which transaction's file is sent again.
#[derive(Drop)]
pub struct ResendWords<'a> {
    pub transaction: TransactionWord,
    /// The paths of logs in which its file may be found.
    pub logs: Vec<&'a str>,
}

/// A command for one transaction, or for several.
#[derive(Clone, Copy)]
pub struct ActWords<'a> {
    pub verb: Verb,
    pub choice: Choice<'a>,
    /// Whether nobody is asked first.
    pub yes: bool,
}

/// What is done to a transaction.
#[derive(Clone, Copy)]
pub enum Verb {
    Cancel,
    Suspend,
    Resume,
    Abandon,
}

/// The transactions that a command is for.
#[derive(Clone, Copy)]
pub enum Choice<'a> {
    /// This one.
    One(TransactionWord),
    /// Those under way: if given, only those with this entity at the other end, and only those of this user.
    Many(Option<u64>, Option<&'a str>),
}

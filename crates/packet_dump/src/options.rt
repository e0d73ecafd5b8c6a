//! Parsing of the command line of `packet_dump`.

ghost use Rattle.std.specs.Prelude.{◌≡◌, ◌⊎◌, Err, IfOk, IfErr, IfSome, IfNone, OnOk};
ghost use Rattle.std.specs.Option.{option_map};
ghost use Rattle.packet_dump.specs.Options.{Asked, Fault, IsRequest, IsValue, Item, RefusesWords, answer_of, asked_of};
ghost use Rattle.packet_dump.specs.Options.{argument, dump, file, run_of};
ghost use Rattle.packet_dump.specs.Options.{bad_value, fault_of, form_name, has_input, is_dashed, kind_name, option_word};
ghost use Rattle.packet_dump.specs.Options.{options_with, out_of_memory, policy_name, texts};
ghost use Rattle.packet_dump.specs.OptionSteps.{IsStepResult, filtered, finished, first_state, joined_in, joined_parts};
ghost use Rattle.packet_dump.specs.OptionSteps.{IsFirstRemoved, item_step, joined_step, option_with, reading_state};
ghost use Rattle.packet_dump.specs.OptionSteps.{step_unless_taken, value_step};
ghost use Rattle.packet_dump.specs.OptionSteps.{step, value_in, word_named};
ghost use Rattle.etherparse.specs.Types.OverlapPolicy.{OverlapPolicy};
ghost use Rattle.packet_dump.specs.declared.dump_options.Kind.{Kind};
ghost use Rattle.packet_dump.specs.declared.dump_options.TimeForm.{TimeForm};

use crate::dump_options::{DumpOptions, Kind, TimeForm};
use etherparse::defrag::OverlapPolicy;
use std::alloc::Global;

/// Request of a command line: print the help text or the version, or dump a capture.
#[derive(Drop)]
pub enum Request<'a> {
    /// Request to print the help text (`--help`).
    Help,
    /// Request to print the version of the program (`--version`).
    Version,
    /// Request to print the lines of a capture: of a file, or of standard input if `path` is `None`.
    Dump {
        options: DumpOptions,
        /// Filter options (`--host`, `--port`, `--net`, `--vlan`) as text.
        filter: FilterTexts<'a>,
        path: Option<&'a str>,
        /// Words of the filter expression: all arguments that are no options, after the file.
        words: Vec<&'a str>,
        /// Filter expression that is explained (`--explain`); no capture is read then.
        explained: Option<&'a str>,
        /// Name of the capture file that the selected packets are written to (`--write`).
        target: Option<&'a str>,
        /// True if a summary is printed after the packet lines (`--summary`).
        summary: bool,
    },
}

/// Kind of a filter option: `--host`, `--port`, `--vlan` or `--net`.
#[derive(Clone, Copy)]
pub enum FilterKind {
    Host,
    Port,
    Vlan,
    Net,
}

/// Filter option of the command line, such as `--port 53`: its kind, and its value as text.
#[derive(Clone, Copy)]
pub struct FilterText<'a> {
    pub kind: FilterKind,
    pub text: &'a str,
}

/// Up to six filter options (such as `--port 53`) as text, in the reverse order of the command line: `first` is the
/// option given last.
#[derive(Clone, Copy)]
pub struct FilterTexts<'a> {
    pub first: Option<FilterText<'a>>,
    pub second: Option<FilterText<'a>>,
    pub third: Option<FilterText<'a>>,
    pub fourth: Option<FilterText<'a>>,
    pub fifth: Option<FilterText<'a>>,
    pub sixth: Option<FilterText<'a>>,
}

/// Error of a command line, with the wrong argument.
#[derive(Drop)]
pub enum UsageError<'a> {
    /// Argument that begins with `-` and is no known option.
    UnknownOption(&'a str),
    /// Option that needs a value and is the last argument.
    NoValue(&'static str),
    /// Value of `--count` that is no number (of packets).
    NotACount(&'a str),
    /// Value of `--only` that is no known kind of packet (`udp`, `tcp`, `icmp`, `arp`, `refused` or `stopped`).
    NotAKind(&'a str),
    /// Value of `--time` that is no known format of timestamps (`relative`, `epoch` or `utc`).
    NotATimeForm(&'a str),
    /// Value of `--timeout` that is no number of seconds up to 4294967295.
    NotATimeout(&'a str),
    /// Value of `--limit` that is no number of bytes up to 65535.
    NotALimit(&'a str),
    /// Value of `--streams` that is no number (of incomplete payloads).
    NotAStreamCount(&'a str),
    /// Value of `--fragment-bytes` that is no number of bytes.
    NotAByteCount(&'a str),
    /// Value of `--fragment-age` that is no number of seconds up to 4294967295.
    NotAnAge(&'a str),
    /// Value of `--overlap` that is no known policy (`last`, `first` or `discard`).
    NotAPolicy(&'a str),
    /// Second input on the command line, where only one is read: the file of `-r`, or `-` for standard input.
    SecondFile(&'a str),
    /// More than six filter options (`--host`, `--port`, `--net`, `--vlan`).
    CrowdedFilter,
    /// Out of memory for the words of the filter expression.
    OutOfMemory,
}

/// Option that needs a value, given as the next argument or after `=`, such as `--count 5`.
#[derive(Clone, Copy)]
pub enum Awaited {
    Count,
    Only,
    Time,
    Timeout,
    Limit,
    Write,
    Streams,
    FragmentBytes,
    FragmentAge,
    Overlap,
    Filter(FilterKind),
    /// `-r`: the value is the name of the input file.
    Input,
    /// `--explain`: the value is a filter expression.
    Explain,
}

impl Awaited {
    /// Returns the name of an option that needs a value, as on the command line, such as `--count`.
    fn word(self) -> &'static str
        ensures { result.now ≡ option_word self }
    {
        match self {
            Awaited::Count => "--count",
            Awaited::Only => "--only",
            Awaited::Time => "--time",
            Awaited::Timeout => "--timeout",
            Awaited::Limit => "--limit",
            Awaited::Write => "--write",
            Awaited::Streams => "--streams",
            Awaited::FragmentBytes => "--fragment-bytes",
            Awaited::FragmentAge => "--fragment-age",
            Awaited::Overlap => "--overlap",
            Awaited::Filter(FilterKind::Host) => "--host",
            Awaited::Filter(FilterKind::Port) => "--port",
            Awaited::Filter(FilterKind::Vlan) => "--vlan",
            Awaited::Filter(FilterKind::Net) => "--net",
            Awaited::Input => "-r",
            Awaited::Explain => "--explain",
        }
    }
}

/// Meaning of an argument that is not the value of the option before it.
#[derive(Clone, Copy)]
pub enum Word {
    Help,
    Version,
    Hex,
    HexFrame,
    Strict,
    Verbose,
    Summary,
    Quiet,
    Reassemble,
    /// `-n` or `-nn`: accepted for compatibility, and ignored, since names are never looked up.
    NoNames,
    /// Option whose value is the next argument, such as `--count`.
    Option(Awaited),
    StandardInput,
    /// Argument that is no option: the input file, or a word of the filter expression.
    Plain,
    /// Argument that begins with `-` and is no option by itself; it may still be an option with its value after `=`.
    Unknown,
}

impl Word {
    /// Returns the meaning of an argument that is not the value of the option before it.
    fn of(text: &str) -> Word
        ensures { result ≡ word_named text.now }
    {
        match text {
            "-h" | "--help" => Word::Help,
            "-V" | "--version" => Word::Version,
            "--hex" => Word::Hex,
            "--hex=frame" => Word::HexFrame,
            "--strict" => Word::Strict,
            "--verbose" => Word::Verbose,
            "--summary" => Word::Summary,
            "--quiet" => Word::Quiet,
            "--reassemble" => Word::Reassemble,
            "-n" | "-nn" => Word::NoNames,
            "-c" | "--count" => Word::Option(Awaited::Count),
            "--only" => Word::Option(Awaited::Only),
            "--time" => Word::Option(Awaited::Time),
            "--timeout" => Word::Option(Awaited::Timeout),
            "--limit" => Word::Option(Awaited::Limit),
            "--write" => Word::Option(Awaited::Write),
            "--streams" => Word::Option(Awaited::Streams),
            "--fragment-bytes" => Word::Option(Awaited::FragmentBytes),
            "--fragment-age" => Word::Option(Awaited::FragmentAge),
            "--overlap" => Word::Option(Awaited::Overlap),
            "--host" => Word::Option(Awaited::Filter(FilterKind::Host)),
            "--port" => Word::Option(Awaited::Filter(FilterKind::Port)),
            "--vlan" => Word::Option(Awaited::Filter(FilterKind::Vlan)),
            "--net" => Word::Option(Awaited::Filter(FilterKind::Net)),
            "-r" => Word::Option(Awaited::Input),
            "--explain" => Word::Option(Awaited::Explain),
            "-" => Word::StandardInput,
            _ if begins_with_dash(text) => Word::Unknown,
            _ => Word::Plain,
        }
    }
}

/// Option and its value in one argument, separated by `=`, such as `--count=5`.
#[derive(Clone, Copy)]
pub struct Joined<'a> {
    option: Awaited,
    value: &'a str,
}

/// Returns the option and the value of an argument such as `--count=5`, or `None` if the argument does not have the
/// form `OPTION=VALUE` with an option that needs a value.
fn joined_in<'a>(text: &'a str) -> Option<Joined<'a>>
    ensures { option_map joined_parts result ≡ joined_in text.now }
{
    match text.split_once('=') {
        Some((name, value)) => option_with(Word::of(name), value),
        None => None,
    }
}

/// Combines the option `word` with its value. Returns `None` if `word` is not an option that needs a value.
fn option_with<'a>(word: Word, value: &'a str) -> Option<Joined<'a>>
    ensures { option_map joined_parts result ≡ option_with word value.now }
{
    match word {
        Word::Option(option) => Some(Joined { option, value }),
        _ => None,
    }
}

/// Returns whether a command line argument begins with `-`.
fn begins_with_dash(text: &str) -> bool
    ensures { result ≡ is_dashed text.now }
{
    text.as_bytes().starts_with(b"-")
}

/// State of the command line parser after the arguments parsed so far.
#[derive(Drop)]
pub struct Reading<'a> {
    options: DumpOptions,
    /// Filter options (`--host`, `--port`, `--net`, `--vlan`) parsed so far, as text.
    filter: FilterTexts<'a>,
    /// True if there were more than six filter options, which is an error at the end.
    crowded: bool,
    /// Arguments that are no options: the input file, if no option names the input, and the filter expression.
    words: Vec<&'a str>,
    /// Name of the input file by `-r`.
    path: Option<&'a str>,
    /// True if the input was named by `-r` or `-`.
    is_named: bool,
    /// Name of the capture file that the selected packets are written to (`--write`).
    target: Option<&'a str>,
    summary: bool,
    /// Filter expression that is explained (`--explain`).
    explained: Option<&'a str>,
    /// Option whose value is the next argument; `None` if the next argument is no value.
    awaited: Option<Awaited>,
}

impl<'a> Reading<'a> {
    /// Returns the state of the command line parser before any argument, with the default options.
    fn new(alloc: Global) -> Reading<'a>
        ensures { reading_state result ≡ first_state }
    {
        Reading {
            options: DumpOptions {
                only: None,
                filter: None,
                time: TimeForm::Relative,
                most: u64::MAX,
                quiet: false,
                hex: false,
                whole: false,
                strict: false,
                verbose: false,
                reassemble: false,
                timeout: 30,
                limit: u16::MAX,
                streams: 256,
                fragment_bytes: None,
                fragment_age: None,
                overlap: None,
            },
            filter: FilterTexts {
                first: None,
                second: None,
                third: None,
                fourth: None,
                fifth: None,
                sixth: None,
            },
            crowded: false,
            words: Vec::new(alloc),
            path: None,
            is_named: false,
            target: None,
            summary: false,
            explained: None,
            awaited: None,
        }
    }

    /// Parses one argument of the command line. Returns the request if the argument is the option `--help` or
    /// `--version`, since all arguments after it are ignored; otherwise returns `None`.
    fn push(&mut self, text: &'a str) -> Result<Option<Request<'a>>, UsageError<'a>>
        ensures { IsStepResult (step (reading_state self.old) text.now) (reading_state self.new) result }
    {
        if let Some(option) = self.awaited {
            return self.push_value(option, text);
        }
        match Word::of(text) {
            Word::Help => return Ok(Some(Request::Help)),
            Word::Version => return Ok(Some(Request::Version)),
            Word::Hex => {
                self.options.hex = true;
                self.options.whole = false;
            }
            Word::HexFrame => {
                self.options.hex = true;
                self.options.whole = true;
            }
            Word::Strict => self.options.strict = true,
            Word::Verbose => self.options.verbose = true,
            Word::Summary => self.summary = true,
            Word::Quiet => self.options.quiet = true,
            Word::Reassemble => self.options.reassemble = true,
            Word::NoNames => {}
            Word::Option(option) => self.awaited = Some(option),
            Word::Unknown => return self.push_joined(text),
            Word::StandardInput if self.has_input() => return Err(UsageError::SecondFile(text)),
            Word::StandardInput => self.is_named = true,
            Word::Plain => return self.push_word(text),
        }
        Ok(None)
    }

    /// Stores an argument that is no option: the input file, or a word of the filter expression.
    fn push_word(&mut self, text: &'a str) -> Result<Option<Request<'a>>, UsageError<'a>>
        ensures { IsStepResult (item_step (reading_state self.old) (argument text.now)) (reading_state self.new) result }
    {
        self.awaited = None;
        match self.words.push(text) {
            Ok(()) => Ok(None),
            Err(_) => Err(UsageError::OutOfMemory),
        }
    }

    /// Returns whether the input was named: by `-r`, by `-`, or by the first argument that is no option.
    fn has_input(&self) -> bool
        ensures { result ≡ has_input (reading_state self.now).settings }
    {
        self.is_named || !self.words.is_empty()
    }

    /// Parses the value of an option, such as the `5` of `--count 5`. If the value is valid, always returns `None`, so
    /// that parsing continues with the next argument.
    fn push_value(
        &mut self,
        option: Awaited,
        text: &'a str,
    ) -> Result<Option<Request<'a>>, UsageError<'a>>
        ensures { IsStepResult (value_step (reading_state self.old) option text.now (value_in option text.now))
            (reading_state self.new) result }
    {
        if let Awaited::Input = option {
            return self.push_input(text);
        }
        set(&mut self.options, option, text)?;
        self.add_filter(option, text);
        self.awaited = None;
        Ok(None)
    }

    /// Parses the value of `-r`, the name of the input file, which may begin with `-`; `-` alone means standard input.
    /// Fails if `-r` or `-` named an input already. An argument that is no option is then a word of the filter
    /// expression, also before `-r`.
    fn push_input(&mut self, text: &'a str) -> Result<Option<Request<'a>>, UsageError<'a>>
        ensures { IsStepResult (step_unless_taken (reading_state self.old) text.now (file text.now))
            (reading_state self.new) result }
    {
        if self.is_named {
            return Err(UsageError::SecondFile(text));
        }
        self.path = match text {
            "-" => None,
            _ => Some(text),
        };
        self.is_named = true;
        self.awaited = None;
        Ok(None)
    }

    /// Parses an argument that begins with `-` and is no option by itself: an option with its value after `=`, such as
    /// `--count=5`; else it is an unknown option.
    fn push_joined(&mut self, text: &'a str) -> Result<Option<Request<'a>>, UsageError<'a>>
        ensures { IsStepResult (joined_step (reading_state self.old) text.now (joined_in text.now))
            (reading_state self.new) result }
    {
        match joined_in(text) {
            Some(found) => self.push_value(found.option, found.value),
            None => Err(UsageError::UnknownOption(text)),
        }
    }

    /// Stores the value of an option that is kept as text: the file of `--write`, the expression of `--explain`, or a
    /// filter option such as `--port`. Does nothing for other options.
    fn add_filter(&mut self, option: Awaited, text: &'a str)
        ensures { reading_state self.new ≡ filtered (reading_state self.old) option text.now }
    {
        match option {
            Awaited::Write => self.target = Some(text),
            Awaited::Explain => self.explained = Some(text),
            Awaited::Filter(kind) => {
                let others = self.filter;
                self.crowded = self.crowded || others.sixth.is_some();
                self.filter = FilterTexts {
                    first: Some(FilterText { kind, text }),
                    second: others.first,
                    third: others.second,
                    fourth: others.third,
                    fifth: others.fourth,
                    sixth: others.fifth,
                };
            }
            Awaited::Count
            | Awaited::Only
            | Awaited::Time
            | Awaited::Timeout
            | Awaited::Limit
            | Awaited::Streams
            | Awaited::FragmentBytes
            | Awaited::FragmentAge
            | Awaited::Overlap
            | Awaited::Input => {}
        }
    }

    /// Returns the request of a command line after its last argument, or an error if an option has no value or there
    /// are more than six filter options.
    fn finish(self) -> Result<Request<'a>, UsageError<'a>>
        ensures { answer_of result ≡ finished (reading_state self.entry) }
    {
        match self.awaited {
            Some(option) => Err(UsageError::NoValue(option.word())),
            None if self.crowded => Err(UsageError::CrowdedFilter),
            None => Ok(self.request()),
        }
    }

    /// Returns the request to dump a capture. The first argument that is no option is the file, unless `-r` or `-`
    /// named the input; the others are the words of the filter expression.
    fn request(self) -> Request<'a>
        ensures { asked_of result ≡ dump (run_of (reading_state self.entry).settings) }
    {
        let mut words = self.words;
        let path = if self.is_named {
            self.path
        } else {
            remove_first(&mut words)
        };
        Request::Dump {
            options: self.options,
            filter: self.filter,
            path,
            words,
            explained: self.explained,
            target: self.target,
            summary: self.summary,
        }
    }
}

/// Removes the first of some words, and returns it; returns `None` if there are no words.
fn remove_first<'a>(words: &mut Vec<&'a str>) -> Option<&'a str>
    ensures { IsFirstRemoved words.old.items words.new.items result }
{
    if words.is_empty() {
        return None;
    }
    Some(words.remove(0))
}

/// Parses the arguments of the command line after the program name. The error is that of the first wrong argument; more
/// than six filter options are an error only if no argument is wrong. Words of the filter expression are not parsed.
pub fn parse<'a>(alloc: Global, words: &'a [String]) -> Result<Request<'a>, UsageError<'a>>
    ensures ok { IfOk result (λ request. IsRequest (texts words.now) (asked_of request)) }
    ensures err { IfErr result (λ error.
        (fault_of error ≡ out_of_memory) ⊎ RefusesWords (texts words.now) (fault_of error)) }
    ensures asked { (asked : Asked) → IsRequest (texts words.now) asked →
        (answer_of result ≡ Err out_of_memory) ⊎ (answer_of result ≡ Ok asked) }
    ensures refused { (fault : Fault) → RefusesWords (texts words.now) fault →
        (answer_of result ≡ Err out_of_memory) ⊎ (answer_of result ≡ Err fault) }
{
    let mut reading = Reading::new(alloc);
    for word in words {
        match reading.push(word.as_str()) {
            Ok(None) => {}
            Ok(Some(request)) => return Ok(request),
            Err(error) => return Err(error),
        }
    }
    reading.finish()
}

/// Parses the value of an option and stores it in `options`. Does nothing for options whose value is kept as text
/// (`--write`, `--explain`, filter options, `-r`).
fn set<'a>(options: &mut DumpOptions, option: Awaited, text: &'a str) -> Result<(), UsageError<'a>>
    ensures ok { OnOk result ((item : Item) × IsValue option text.now item
        × (options.new ≡ options_with options.old item)) }
    ensures err { IfErr result (λ error. fault_of error ≡ bad_value option text.now) }
    ensures bad { IfErr result (λ _. (item : Item) → IsValue option text.now item → ⊥) }
{
    match option {
        Awaited::Count => {
            options.most = text
                .parse::<u64>()
                .map_err(|_| UsageError::NotACount(text))?;
        }
        Awaited::Only => {
            options.only = Some(kind_of(text).ok_or(UsageError::NotAKind(text))?);
        }
        Awaited::Time => {
            options.time = form_of(text).ok_or(UsageError::NotATimeForm(text))?;
        }
        Awaited::Timeout => {
            options.timeout = text
                .parse::<u32>()
                .map_err(|_| UsageError::NotATimeout(text))?;
        }
        Awaited::Limit => {
            options.limit = text
                .parse::<u16>()
                .map_err(|_| UsageError::NotALimit(text))?;
        }
        Awaited::Write => {}
        Awaited::Streams => {
            options.streams = text
                .parse::<u64>()
                .map_err(|_| UsageError::NotAStreamCount(text))?;
        }
        Awaited::FragmentBytes => {
            let bytes = text
                .parse::<u64>()
                .map_err(|_| UsageError::NotAByteCount(text))?;
            options.fragment_bytes = Some(bytes);
        }
        Awaited::FragmentAge => {
            let seconds = text.parse::<u32>().map_err(|_| UsageError::NotAnAge(text))?;
            options.fragment_age = Some(seconds);
        }
        Awaited::Overlap => {
            let policy = policy_of(text).ok_or(UsageError::NotAPolicy(text))?;
            options.overlap = Some(policy);
        }
        Awaited::Filter(_) => {}
        Awaited::Input => {}
        Awaited::Explain => {}
    }
    Ok(())
}

/// Returns the kind of packets that `--only` selects by this name (`udp`, `tcp` ..), or `None` for an unknown name.
fn kind_of(name: &str) -> Option<Kind>
    ensures some { IfSome result (λ kind. name.now ≡ kind_name kind) }
    ensures none { IfNone result ((kind : Kind) → name.now ≡ kind_name kind → ⊥) }
{
    match name {
        "udp" => Some(Kind::Udp),
        "tcp" => Some(Kind::Tcp),
        "icmp" => Some(Kind::Icmp),
        "arp" => Some(Kind::Arp),
        "refused" => Some(Kind::Refused),
        "stopped" => Some(Kind::Stopped),
        _ => None,
    }
}

/// Returns the timestamp format that `--time` selects by this name (`relative`, `epoch` or `utc`), or `None` for an
/// unknown name.
fn form_of(name: &str) -> Option<TimeForm>
    ensures some { IfSome result (λ form. name.now ≡ form_name form) }
    ensures none { IfNone result ((form : TimeForm) → name.now ≡ form_name form → ⊥) }
{
    match name {
        "relative" => Some(TimeForm::Relative),
        "epoch" => Some(TimeForm::Epoch),
        "utc" => Some(TimeForm::Utc),
        _ => None,
    }
}

/// Returns the policy for overlapping fragments that `--overlap` selects by this name (`last`, `first` or `discard`), or
/// `None` for an unknown name.
fn policy_of(name: &str) -> Option<OverlapPolicy>
    ensures some { IfSome result (λ policy. name.now ≡ policy_name policy) }
    ensures none { IfNone result ((policy : OverlapPolicy) → name.now ≡ policy_name policy → ⊥) }
{
    match name {
        "last" => Some(OverlapPolicy::LastWins),
        "first" => Some(OverlapPolicy::FirstWins),
        "discard" => Some(OverlapPolicy::Discard),
        _ => None,
    }
}

//! The arguments and options of subcommands.
ghost use Rattle.std.specs.Prelude.{◌≡◌, true, IfOk};
ghost use Rattle.clap.specs.Walk.{is_empty};
ghost use Rattle.clap.specs.Words.{App, Rule, with_rule};
ghost use Rattle.litmus_command_line.specs.Parameters.{HasRule, argument_rule, flag_rule};
ghost use Rattle.litmus_command_line.specs.Parameters.{number_by, parser_of, rule_of_parameter, text_rule};
ghost use Rattle.litmus_command_line.specs.Subcommands.{Reads};

use clap::builder::ValueParser;
use clap::{Arg, ArgAction, Command};
use std::alloc::{AllocError, Global};

/// An argument or an option of a subcommand: its name, its help, and what else is known of it.
#[derive(Clone, Copy)]
pub(super) enum Parameter<'a> {
    /// An argument, which has to be there.
    Argument(&'a str, &'a str),
    /// .. which may be left out.
    Optional(&'a str, &'a str),
    /// .. of which there may be more than one.
    Several(&'a str, &'a str),
    /// .. which is one of these words.
    OneOf(&'a str, &'a str, &'a [&'a str]),
    /// An option without a value.
    Flag(&'a str, &'a str),
    /// .. which conflicts with these others.
    LoneFlag(&'a str, &'a str, &'a [&'a str]),
    /// An option with a number.
    Number(&'a str, &'a str, Bounds),
    /// .. with this default.
    NumberOr(&'a str, &'a str, Bounds, &'a str),
    /// An option with a text, which help describes so.
    Text(&'a str, &'a str, &'a str),
    /// .. which may be given more than once.
    Texts(&'a str, &'a str, &'a str),
    /// .. which conflicts with these others.
    LoneText(&'a str, &'a str, &'a str, &'a [&'a str]),
    /// An option with a number that is one of these words.
    Choice(&'a str, &'a str, &'a [&'a str]),
}

/// Which numbers an option takes.
#[derive(Clone, Copy)]
pub(super) enum Bounds {
    Any,
    /// From 1 on.
    Positive,
    /// From 1 to 64.
    Few,
    /// From 0 to 64.
    FewOrNone,
}

impl<'a> Parameter<'a> {
    /// Adds this parameter to the subcommand.
    pub(super) fn add_to(
        self,
        alloc: Global,
        command: Result<Command<'a>, AllocError>,
    ) -> Result<Command<'a>, AllocError>
        ensures { (app : App) → IfOk command.entry (Reads app)
            → IfOk result (Reads (with_rule app (rule_of_parameter self.entry))) }
    {
        let arg = self.arg(alloc);
        command?.arg(arg?)
    }

    /// Returns the parameter for `clap`.
    fn arg(self, alloc: Global) -> Result<Arg<'a>, AllocError>
        ensures { IfOk result (HasRule (rule_of_parameter self.entry)) }
    {
        match self {
            Parameter::Argument(name, help) => Ok(argument(alloc, name, help)),
            Parameter::Optional(name, help) => Ok(Arg::new(alloc, name).help(help)),
            Parameter::Several(name, help) => {
                Ok(argument(alloc, name, help).action(ArgAction::Append))
            }
            Parameter::OneOf(name, help, words) => {
                Ok(argument(alloc, name, help).value_parser(words))
            }
            Parameter::Flag(name, help) => Ok(flag(alloc, name, help)),
            Parameter::LoneFlag(name, help, others) => { lone(flag(alloc, name, help), others) }
            Parameter::Number(name, help, bounds) => Ok(number(alloc, name, help, bounds)),
            Parameter::NumberOr(name, help, bounds, value) => {
                Ok(number(alloc, name, help, bounds).default_value(value))
            }
            Parameter::Text(name, help, value) => Ok(text(alloc, name, help, value)),
            Parameter::Texts(name, help, value) => {
                Ok(text(alloc, name, help, value).action(ArgAction::Append))
            }
            Parameter::LoneText(name, help, value, others) => {
                lone(text(alloc, name, help, value), others)
            }
            Parameter::Choice(name, help, words) => {
                Ok(text(alloc, name, help, "N").value_parser(words))
            }
        }
    }
}

impl Bounds {
    /// Returns the parser of such a number.
    fn parser<'a>(self) -> ValueParser<'a>
        ensures { result ≡ parser_of self }
    {
        match self {
            Bounds::Any => ValueParser::unsigned(0, u64::MAX),
            Bounds::Positive => ValueParser::unsigned(1, u64::MAX),
            Bounds::Few => ValueParser::unsigned(1, 64),
            Bounds::FewOrNone => ValueParser::unsigned(0, 64),
        }
    }
}

fn argument<'a>(alloc: Global, name: &'a str, help: &'a str) -> Arg<'a>
    ensures { HasRule (argument_rule name.entry.now) result }
{
    Arg::new(alloc, name).help(help).required(true)
}

fn flag<'a>(alloc: Global, name: &'a str, help: &'a str) -> Arg<'a>
    ensures { HasRule (flag_rule name.entry.now) result }
{
    Arg::new(alloc, name)
        .long(name)
        .help(help)
        .action(ArgAction::SetTrue)
}

fn number<'a>(alloc: Global, name: &'a str, help: &'a str, bounds: Bounds) -> Arg<'a>
    ensures { HasRule (number_by name.entry.now (parser_of bounds)) result }
{
    text(alloc, name, help, "N").value_parser(bounds.parser())
}

fn text<'a>(alloc: Global, name: &'a str, help: &'a str, value: &'a str) -> Arg<'a>
    ensures { HasRule (text_rule name.entry.now) result }
{
    Arg::new(alloc, name)
        .long(name)
        .value_name(value)
        .help(help)
}

/// Returns the option, which conflicts with these others.
fn lone<'a>(option: Arg<'a>, others: &[&'a str]) -> Result<Arg<'a>, AllocError>
    ensures { (rule : Rule) → rule.is_free ≡ true → HasRule rule option.entry
        → IfOk result (HasRule (record rule { is_free = is_empty others.now })) }
{
    option.conflicts_with_all(others)
}

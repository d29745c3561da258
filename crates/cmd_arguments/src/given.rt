//! The names and options behind a command's word, gathered.

ghost use Rattle.std.specs.Prelude.{◌≡◌, [], map, option_map, unwrap_or};
ghost use Rattle.clap.specs.Words.{first_of, found_of, rows_of};
ghost use Rattle.cmd_arguments.specs.Given.{names};
ghost use Rattle.cmd_arguments.specs.Read.{names_read, IsFlag, IsGivenIn};
ghost use Rattle.cmd_arguments.specs.Table.{long_name};

use crate::asking::NAMES;
use crate::table::OptionName;
use clap::ArgMatches;
use std::marker::Model;

/// No name, one, two, three, or more.
#[derive(Clone, Copy)]
pub enum Names<'a> {
    Zero,
    One(&'a str),
    Two(&'a str, &'a str),
    Three(&'a str, &'a str, &'a str),
    More,
}

/// What the words behind a command's word give, where no option stands twice: the names, each option's text, and whether each flag
/// stands.
#[derive(Drop)]
pub struct Given<'a> {
    pub names: Names<'a>,
    pub top: Option<&'a str>,
    pub choice: Option<&'a str>,
    pub input: Option<&'a str>,
    pub disk: Option<&'a str>,
    pub ports: Option<&'a str>,
    pub out_disk: Option<&'a str>,
    pub tail: Option<&'a str>,
    pub steps: Option<&'a str>,
    pub plain: bool,
    pub zilog: bool,
    pub comments: bool,
}

impl<'a> Model for Given<'a> {
    ghost use Rattle.cmd_arguments.specs.Given.{Gathered};
    ghost use Rattle.cmd_arguments.specs.Read.{flag_read, names_read, option_read};

    ghost Value = { Gathered };

    ghost view = { λ g. record {
      names = names_read g.names;
      top = option_read g.top;
      choice = option_read g.choice;
      input = option_read g.input;
      disk = option_read g.disk;
      ports = option_read g.ports;
      out_disk = option_read g.out_disk;
      tail = option_read g.tail;
      steps = option_read g.steps;
      plain = flag_read g.plain;
      zilog = flag_read g.zilog;
      comments = flag_read g.comments;
    } };
}

impl<'a> Names<'a> {
    fn of_texts(texts: Option<&[&'a str]>) -> Names<'a>
        ensures { names_read result ≡ names (unwrap_or (option_map (λ s. map (λ v. v.now) s.now) texts.entry) []) }
    {
        let Some(texts) = texts else {
            return Names::Zero;
        };
        match texts {
            [] => Names::Zero,
            [name] => Names::One(*name),
            [first, second] => Names::Two(*first, *second),
            [first, second, third] => Names::Three(*first, *second, *third),
            _ => Names::More,
        }
    }
}

impl<'a> Given<'a> {
    /// What `clap` found in the words behind a command's word.
    pub fn of_matches(matches: &ArgMatches<'a>) -> Given<'a>
        ensures { IsGivenIn (rows_of (found_of matches.now)) result }
    {
        Given {
            names: Names::of_texts(matches.get_raw(NAMES)),
            top: matches.get_str(OptionName::Top.name()),
            choice: matches.get_str(OptionName::Choice.name()),
            input: matches.get_str(OptionName::Input.name()),
            disk: matches.get_str(OptionName::Disk.name()),
            ports: matches.get_str(OptionName::Ports.name()),
            out_disk: matches.get_str(OptionName::OutDisk.name()),
            tail: matches.get_str(OptionName::Tail.name()),
            steps: matches.get_str(OptionName::Steps.name()),
            plain: has_flag(matches, OptionName::Plain),
            zilog: has_flag(matches, OptionName::Zilog),
            comments: has_flag(matches, OptionName::Comments),
        }
    }
}

// Whether a flag stands.
fn has_flag(matches: &ArgMatches<'_>, flag: OptionName) -> bool
    ensures { IsFlag (first_of (long_name flag) (rows_of (found_of matches.now))) result }
{
    matches.get_flag(flag.name())
}

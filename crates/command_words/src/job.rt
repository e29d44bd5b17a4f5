use crate::command::Command;
use grd_base::Limits;
use std::marker::Model;

/// What the words ask for.
#[derive(Debug, Drop)]
pub struct Job {
    pub command: Command,
    /// The name of the domain's file.
    pub domain: String,
    /// The name of the problem's file.
    pub problem: String,
    /// The name of the goals' file. It is empty where the command reads none.
    pub goals: String,
    pub limits: Limits,
}

impl Model for Job {
    ghost use Rattle.std.specs.Prelude.{string_bytes};
    ghost use Rattle.command_words.specs.Commands.{PlainJob};

    ghost Value = { PlainJob };

    ghost view = { λ j. record {
      command = j.command;
      domain = string_bytes j.domain;
      problem = string_bytes j.problem;
      goals = string_bytes j.goals;
      limits = j.limits;
    } };
}

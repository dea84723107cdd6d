//! Translates messages between encoding rules of ASN.1, from standard input to standard output.
#![tactic(auto)]

use asn1_module_command::module_command;
use asn1_module_order::{has_module_command, names_modules};
use asn1_relay_command::{command, refuse_arguments};
use std::process::ExitCode;
use std::{env, io};

fn main(rt: HostRuntime) -> ExitCode {
    let mut errors = rt.stderr();
    let status = match arguments(&rt) {
        Ok(words) if has_modules(words.as_slice()) => module_command(
            &rt,
            words.as_slice(),
            &mut rt.stdin(),
            &mut rt.stdout(),
            &mut errors,
        ),
        Ok(words) => {
            let alloc = rt.alloc();
            command(
                alloc,
                words.as_slice(),
                &mut rt.stdin(),
                &mut rt.stdout(),
                &mut errors,
            )
        }
        Err(error) => refuse_arguments(&error, &mut errors),
    };
    ExitCode::from(status)
}

/// Whether a command line is one with modules.
fn has_modules(words: &[String]) -> bool {
    names_modules(words) || has_module_command(words)
}

/// The program's name and the words after it.
fn arguments(rt: &HostRuntime) -> io::Result<Vec<String>> {
    let words = env::args(rt)?.collect(rt.alloc())?;
    Ok(words)
}

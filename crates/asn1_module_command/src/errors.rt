//! Why the program stops, and its messages.
ghost use Rattle.std.specs.Prelude.{◌≡◌};

use asn1_module_order::ModuleError;
use asn1_relay_command::Fault;
use asn1_relay_core::RunFault;
use asn1_table_json_reading::JsonError;
use asn1_table_json_writing::WriteError;
use asn1_table_locating::Refused;
use std::alloc::{AllocError, AllocFailed};
use std::fmt;
use thiserror::Error;

/// Where a message is refused, or octets follow it.
#[derive(Debug, Drop)]
pub enum Place {
    /// At a record of it.
    Refused(Refused),
    /// From this octet on.
    Surplus(usize),
}

impl fmt::Display for Place {
    fn fmt<W: fmt::Write>(&self, f: &mut fmt::Formatter<W>) -> fmt::Result {
        match self {
            Place::Refused(refused) => write!(f, "{refused}"),
            Place::Surplus(octet) => write!(f, "from octet {octet} on"),
        }
    }
}

/// Why messages are not translated. Its text is the program's message.
#[derive(Debug, Drop, Error)]
pub enum CommandError {
    /// As for the types that the program knows.
    #[error("{0}")]
    Fault(Fault),
    /// The same, and where.
    #[error("{0}: {1}")]
    Located(Fault, Place),
    /// The input has other characters than pairs of hexadecimal digits and spaces.
    #[error("the input is not hexadecimal")]
    NotHexadecimal,
    /// The input is not the JSON of a value of the type.
    #[error("{0}")]
    Json(JsonError),
    /// The JSON of a message of a stream is not that of a value of the type.
    #[error("message {0}: {1}")]
    JsonAtMessage(u64, JsonError),
    /// The value has no JSON.
    #[error("{0}")]
    NoJson(WriteError),
    /// The octets are not the canonical encoding of their value: the first octet that differs.
    #[error("not canonical from octet {0} on")]
    NotCanonical(usize),
    /// The same, and where a strict reader refuses them.
    #[error("not canonical from octet {0} on: {1}")]
    NotStrict(usize, Refused),
}

impl From<Fault> for CommandError {
    ghost use Rattle.asn1_module_command.specs.declared.errors.CommandError.TheVariants as error;

    ghost from_gives = { λ f e. e ≡ error.Fault f };

    fn from(fault: Fault) -> Self {
        CommandError::Fault(fault)
    }
}

impl From<RunFault> for CommandError {
    ghost use Rattle.asn1_module_command.specs.declared.errors.CommandError.TheVariants as error;
    ghost use Rattle.asn1_relay_command.specs.Runs.{run_fault_named};

    ghost from_gives = { λ r e. e ≡ error.Fault (run_fault_named r) };

    fn from(fault: RunFault) -> Self {
        CommandError::Fault(Fault::from(fault))
    }
}

impl From<JsonError> for CommandError {
    fn from(error: JsonError) -> Self {
        CommandError::Json(error)
    }
}

impl From<WriteError> for CommandError {
    fn from(error: WriteError) -> Self {
        match error {
            WriteError::OutOfMemory => CommandError::Fault(Fault::OutOfMemory),
            error => CommandError::NoJson(error),
        }
    }
}

impl From<AllocError> for CommandError {
    ghost use Rattle.asn1_module_command.specs.declared.errors.CommandError.TheVariants as error;
    ghost use Rattle.asn1_relay_command.specs.declared.fault.Fault.TheVariants as fault;

    ghost from_gives = { λ _ e. e ≡ error.Fault fault.OutOfMemory };

    fn from(_refused: AllocError) -> Self {
        CommandError::Fault(Fault::OutOfMemory)
    }
}

impl<T: Drop> From<AllocFailed<T>> for CommandError {
    fn from(_refused: AllocFailed<T>) -> Self {
        CommandError::Fault(Fault::OutOfMemory)
    }
}

/// Why nothing more is done.
#[derive(Debug, Drop)]
pub enum Stop {
    /// A module is wrong.
    Module(ModuleError),
    /// Messages are not translated.
    Command(CommandError),
}

impl From<ModuleError> for Stop {
    ghost use Rattle.asn1_module_command.specs.declared.errors.Stop.TheVariants as stop;

    ghost from_gives = { λ e s. s ≡ stop.Module e };

    fn from(error: ModuleError) -> Self {
        Stop::Module(error)
    }
}

impl From<CommandError> for Stop {
    ghost use Rattle.asn1_module_command.specs.declared.errors.Stop.TheVariants as stop;

    ghost from_gives = { λ e s. s ≡ stop.Command e };

    fn from(error: CommandError) -> Self {
        Stop::Command(error)
    }
}

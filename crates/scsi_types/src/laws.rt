//! Laws over the crate's definitions: each function's contract is one, and its body is empty.
ghost use Rattle.std.specs.Prelude.{◌≡◌};
ghost use Rattle.scsi_types.specs.Sense as named;

use crate::Sense;

/// The constants of [`Sense`] are what the definitions call by their names.
pub fn sense_by_name()
    ensures no_sense { Sense.NO_SENSE ≡ named.no_sense }
    ensures standby { Sense.TARGET_PORT_IN_STANDBY_STATE ≡ named.target_port_in_standby_state }
    ensures unavailable { Sense.TARGET_PORT_IN_UNAVAILABLE_STATE ≡ named.target_port_in_unavailable_state }
    ensures write_error { Sense.WRITE_ERROR ≡ named.write_error }
    ensures read_error { Sense.UNRECOVERED_READ_ERROR ≡ named.unrecovered_read_error }
    ensures target_failure { Sense.INTERNAL_TARGET_FAILURE ≡ named.internal_target_failure }
    ensures set_failed { Sense.SET_TARGET_PORT_GROUPS_COMMAND_FAILED ≡ named.set_target_port_groups_command_failed }
    ensures list_length { Sense.PARAMETER_LIST_LENGTH_ERROR ≡ named.parameter_list_length_error }
    ensures opcode { Sense.INVALID_OPCODE ≡ named.invalid_opcode }
    ensures range { Sense.LBA_OUT_OF_RANGE ≡ named.lba_out_of_range }
    ensures field { Sense.INVALID_FIELD_IN_CDB ≡ named.invalid_field_in_cdb }
    ensures unit { Sense.LOGICAL_UNIT_NOT_SUPPORTED ≡ named.logical_unit_not_supported }
    ensures list { Sense.INVALID_FIELD_IN_PARAMETER_LIST ≡ named.invalid_field_in_parameter_list }
    ensures release { Sense.INVALID_RELEASE_OF_PERSISTENT_RESERVATION ≡ named.invalid_release_of_persistent_reservation }
    ensures saving { Sense.SAVING_PARAMETERS_NOT_SUPPORTED ≡ named.saving_parameters_not_supported }
    ensures registered { Sense.INSUFFICIENT_REGISTRATION_RESOURCES ≡ named.insufficient_registration_resources }
    ensures power_on { Sense.POWER_ON ≡ named.power_on }
    ensures preempted { Sense.RESERVATIONS_PREEMPTED ≡ named.reservations_preempted }
    ensures released { Sense.RESERVATIONS_RELEASED ≡ named.reservations_released }
    ensures unregistered { Sense.REGISTRATIONS_PREEMPTED ≡ named.registrations_preempted }
    ensures access_state { Sense.ACCESS_STATE_CHANGED ≡ named.access_state_changed }
{}

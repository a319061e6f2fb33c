//! What the tables say, in other words: each function's contract is a law over them, and its body is empty.
ghost use Rattle.std.specs.Prelude.{◌≡◌, ◌<◌, ◌+◌, ◌*◌, ◌^◌, ℕ, length, take, drop, slice_index, IsTrue};
ghost use Rattle.byteorder.specs.Endian.{big_number};
ghost use Rattle.scsi_types.specs.Lun.{IsLunOf};
ghost use Rattle.scsi_types.specs.declared.names.Group.{Group};
ghost use Rattle.scsi_types.specs.declared.names.Place.{Place};
ghost use Rattle.scsi_types.specs.declared.pages.ModeHeader.TheVariants.{Six, Ten};
ghost use Rattle.scsi_types.specs.declared.pages.InquiryPage.{InquiryPage as Page};
ghost use Rattle.scsi_types.specs.declared.pages.LunSelect.{LunSelect as Select};
ghost use Rattle.scsi_types.specs.declared.pages.ModePage.{ModePage as Mode};
ghost use Rattle.scsi_types.specs.declared.pages.PageControl.{PageControl as Control};
ghost use Rattle.identity.specs.Table.{spell, are_bytes};
ghost use Rattle.identity.specs.Capacity.{capacity_16};
ghost use Rattle.identity.specs.Inquiry.{Peripheral, nothing, standard_inquiry};
ghost use Rattle.identity.specs.InquiryData.{inquiry_data};
ghost use Rattle.identity.specs.Luns.{selected, lun_list};
ghost use Rattle.identity.specs.Mode.{mode_data};
ghost use Rattle.identity.specs.VitalProductData as vpd;

/// Each length field counts the bytes behind it: ADDITIONAL LENGTH, PAGE LENGTH, MODE DATA LENGTH, LUN LIST LENGTH.
pub fn lengths_count_what_follows()
    ensures additional { (p : Peripheral) → let bytes = spell (standard_inquiry p) in
        slice_index bytes 4 + 5 ≡ length bytes }
    ensures supported { let bytes = spell vpd.supported_pages in big_number 2 (drop 2 bytes) + 4 ≡ length bytes }
    ensures serial { (place : Place) → let bytes = spell (vpd.serial_number place) in
        big_number 2 (drop 2 bytes) + 4 ≡ length bytes }
    ensures identification { (place : Place) (group : Group) →
        let bytes = spell (vpd.device_identification place group) in
        big_number 2 (drop 2 bytes) + 4 ≡ length bytes }
    ensures limits { let bytes = spell vpd.block_limits in big_number 2 (drop 2 bytes) + 4 ≡ length bytes }
    ensures mode_6 { (control : Control) (page : Mode) → let bytes = spell (mode_data Six control page) in
        slice_index bytes 0 + 1 ≡ length bytes }
    ensures mode_10 { (control : Control) (page : Mode) → let bytes = spell (mode_data Ten control page) in
        big_number 2 bytes + 2 ≡ length bytes }
    ensures luns { (place : Place) (select : Select) → place.units < 256 →
        let bytes = spell (lun_list place select) in big_number 4 bytes + 8 ≡ length bytes }
{}

/// Fields that share a byte fill it, and none is too small for its value.
pub fn shared_fields_fill_their_bytes()
    ensures inquiry { (place : Place) (group : Group) (page : Page) → IsTrue (are_bytes (inquiry_data place group page)) }
    ensures nothing { IsTrue (are_bytes (standard_inquiry nothing)) }
    ensures mode { (control : Control) (page : Mode) → IsTrue (are_bytes (mode_data Six control page)) }
    ensures mode_10 { (control : Control) (page : Mode) → IsTrue (are_bytes (mode_data Ten control page)) }
    ensures capacity { (blocks : ℕ) → IsTrue (are_bytes (capacity_16 blocks)) }
{}

/// REPORT LUNS lists the units in order, each by a LUN that names it (SAM-5, 4.7).
pub fn each_unit_has_its_lun()
    ensures { (place : Place) (select : Select) (unit : ℕ) → unit < selected place select →
        IsLunOf (take 8 (drop (8 + 8 * unit) (spell (lun_list place select)))) unit }
{}

/// Both controllers give a unit one NAA designator and one serial number, and no other unit has them.
pub fn a_unit_is_known_by_its_names()
    ensures one_by_either_port { (place : Place) (group other : Group) →
        take 12 (drop 4 (spell (vpd.device_identification place group)))
        ≡ take 12 (drop 4 (spell (vpd.device_identification place other))) }
    ensures designators_differ { (place other : Place) (group : Group) → place.array < 2 ^ 32 → other.array < 2 ^ 32 →
        spell (vpd.device_identification place group) ≡ spell (vpd.device_identification other group) →
        (place.array ≡ other.array) × (place.unit ≡ other.unit) }
    ensures serials_differ { (place other : Place) → place.array < 2 ^ 32 → other.array < 2 ^ 32 →
        place.unit < 100 → other.unit < 100 → spell (vpd.serial_number place) ≡ spell (vpd.serial_number other) →
        (place.array ≡ other.array) × (place.unit ≡ other.unit) }
{}

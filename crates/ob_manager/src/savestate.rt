ghost use Rattle.std.specs.Prelude.{◌≡◌, [], IfErr, IfOk, Ok};
ghost use Rattle.ob_codec.specs.Reading.{Gives, GivesAll, number_at, where_at};
ghost use Rattle.pin_core.specs.Opened.{Opens};
ghost use Rattle.pin_words.specs.Keepers.{IsFreshWith, state_of};
ghost use Rattle.pin_words.specs.Views.{keeper_gave, keeper_with_slots};
ghost use Rattle.ob_manager.specs.Savestates.{data_behind, is_mark, load, load_with, saved, saved_with};
ghost use Rattle.ob_store.specs.SavedStore.{begun_again};
ghost use Rattle.ob_store.specs.State.{shape_of};
ghost use Rattle.std.specs.Int.{w64};

use crate::host_data::HostData;
use crate::manager::Manager;
use ob_codec::{Cursor, ReadFault, Spelled, TextFault, seal, unseal};
use ob_rights::Fault;
use ob_store::Store;
use pin_core::Slot;
use pin_words::{Keeper, LockedPins, PinKeeper, Pins, Reader};
use std::alloc::{AllocError, Global};

// The letters OBJS, and the version of the format: 1.
const MARK: u64 = 0x1_534a_424f;

// The letters OBJD, and the version of the format with what a host keeps: 1.
const DATA_MARK: u64 = 0x1_444a_424f;

/// Reads the mark of a savestate of this version.
fn read_mark(from: &mut Cursor<'_>) -> Result<u64, ReadFault>
    ensures { Gives (λ mark. mark) result (where_at is_mark (number_at w64) from.old) from.new }
{
    let mark = from.eight()?;
    if mark != MARK {
        return Err(ReadFault::Text(TextFault::Value));
    }
    Ok(mark)
}

/// Reads what a host keeps behind its mark; nothing is kept behind the other. [`TextFault::Value`] where that is neither,
/// and where nothing is kept though the mark says so.
fn read_data(alloc: Global, mark: u64, from: &mut Cursor<'_>) -> Result<HostData, ReadFault>
    ensures { Gives (λ kept. kept) result (data_behind mark from.old) from.new }
{
    if mark == DATA_MARK {
        let kept = HostData::read(alloc, from)?;
        if kept.is_empty() {
            return Err(ReadFault::Text(TextFault::Value));
        }
        return Ok(kept);
    }
    if mark == MARK {
        return Ok(HostData::new(alloc));
    }
    Err(ReadFault::Text(TextFault::Value))
}

impl<K: PinKeeper> Manager<K> {
    /// The whole state as bytes, which [`load`](Manager::load) reads again: a mark with the format's version, the
    /// state, and the SHA-256 digest of both, in the order and the widths of docs/SAVESTATES.md. One state has one
    /// spelling.
    ///
    /// The copies that readers hold aren't part of it, and none of their words is looked at, so readers need not stop.
    /// Linear in what is there; the refusal is want of memory.
    pub fn save(&self, alloc: Global) -> Result<Vec<u8>, AllocError>
        ensures saved { IfOk result (λ bytes. bytes.items ≡ saved self.now) }
        // What is saved loads to the very same state, whatever that is; its keeper begins with its slots.
        ensures again { IfOk result (λ bytes. load bytes.items ≡ Ok (begun_again self.now)) }
    {
        let mut bytes = Vec::new(alloc);
        MARK.write(&mut bytes)?;
        self.store.write(&mut bytes)?;
        seal(&mut bytes)?;
        Ok(bytes)
    }

    /// The same with what a host keeps, for [`load_with`](Manager::load_with): where it keeps nothing, as
    /// [`save`](Manager::save) has it.
    pub fn save_with(&self, alloc: Global, kept: &HostData) -> Result<Vec<u8>, AllocError>
        ensures saved { IfOk result (λ bytes. bytes.items ≡ saved_with kept.now self.now) }
        ensures again { IfOk result (λ bytes. load_with bytes.items ≡ Ok (begun_again self.now, kept.now)) }
    {
        if kept.is_empty() {
            return self.save(alloc);
        }
        let mut bytes = Vec::new(alloc);
        DATA_MARK.write(&mut bytes)?;
        kept.write(&mut bytes)?;
        self.store.write(&mut bytes)?;
        seal(&mut bytes)?;
        Ok(bytes)
    }
}

impl Manager<LockedPins> {
    ghost use Rattle.std.specs.Prelude.{Err};
    ghost use Rattle.ob_codec.specs.declared.fault.ReadFault.TheVariants.{Text};
    ghost use Rattle.ob_codec.specs.declared.fault.TextFault.{TextFault};
    ghost use Rattle.ob_codec.specs.Sealing.{unsealed};

    /// The manager of a savestate, over a keeper under a lock, with all that holds of any other. Nobody holds a copy of
    /// an Id yet; [`over`](Manager::over) puts it over another keeper.
    ///
    /// Refused with the first thing that is wrong with the bytes, the digest before all else and before memory is asked
    /// for, and with want of memory.
    /// Bytes that lie about a count ask for no more memory than what stands behind it, except for 8 bytes for each
    /// thread number that their limits let be given. Linear in the bytes, except that objects are ordered by when they
    /// were made.
    pub fn load(alloc: Global, bytes: &[u8]) -> Result<Manager<LockedPins>, ReadFault>
        ensures gives { GivesAll (λ manager. manager) result (load bytes.now) }
        ensures digest { (fault : TextFault) → unsealed bytes.now ≡ Err fault → result ≡ Err (Text fault) }
    {
        let text = unseal(bytes)?;
        let mut from = Cursor::new(text);
        let _mark = read_mark(&mut from)?;
        let store = Store::read(alloc, &mut from)?;
        from.end()?;
        Ok(Manager { store })
    }

    /// The manager of a savestate with what a host kept, as [`save_with`](Manager::save_with) wrote it, and of one in
    /// which it kept nothing. It is refused as [`load`](Manager::load) refuses.
    pub fn load_with(
        alloc: Global,
        bytes: &[u8],
    ) -> Result<(Manager<LockedPins>, HostData), ReadFault>
        ensures gives { GivesAll (λ read. (read.0, read.1)) result (load_with bytes.now) }
        ensures digest { (fault : TextFault) → unsealed bytes.now ≡ Err fault → result ≡ Err (Text fault) }
    {
        let text = unseal(bytes)?;
        let mut from = Cursor::new(text);
        let mark = from.eight()?;
        let kept = read_data(alloc, mark, &mut from)?;
        let store = Store::read(alloc, &mut from)?;
        from.end()?;
        Ok((Manager { store }, kept))
    }

    /// The slots: another keeper has to begin with these, if the manager is to go on over it.
    pub fn slots(&self) -> &[Slot]
        ensures slots { result.now ≡ self.now.keeper.slots }
        ensures opens { Opens (shape_of self.now.state.limits) self.now.keeper.slots }
    {
        self.store.slots()
    }

    /// A keeper over new words, which begins with the slots of this manager, for [`over`](Manager::over), and a reader
    /// of these words, which holds nothing.
    ///
    /// Linear in the slots; the refusal is want of memory (8).
    pub fn words(&self, alloc: Global) -> Result<(Keeper, Reader), Fault>
        ensures begins { IfOk result (λ parts. IsFreshWith (state_of parts.0) (shape_of self.now.state.limits)
            self.now.keeper.slots) }
        ensures view { IfOk result (λ parts. parts.0.view
            ≡ keeper_gave (keeper_with_slots (shape_of self.now.state.limits) self.now.keeper.slots)) }
        ensures same { IfOk result (λ parts. parts.1.table ≡ parts.0.table) }
        ensures held { IfOk result (λ parts. parts.1.view.held ≡ []) }
        ensures memory { IfErr result (λ fault. fault ≡ Fault.Memory) }
    {
        let slots = Vec::from_slice(alloc, self.slots())?;
        let (pins, opening) = Pins::with_slots(alloc, self.limits().shape(), slots)?;
        match opening.start(&pins) {
            Ok(parts) => Ok(parts),
            Err(_) => Err(Fault::Memory),
        }
    }

    /// The manager over another keeper, which begins with the slots of this one. It takes no memory.
    pub fn over<K: PinKeeper>(self, keeper: K) -> Manager<K>
        requires { IsFreshWith (K.kept keeper) (shape_of self.state.limits) self.keeper.slots }
        ensures { result ≡ record self { keeper = K.kept keeper } }
    {
        Manager {
            store: self.store.over(keeper),
        }
    }
}

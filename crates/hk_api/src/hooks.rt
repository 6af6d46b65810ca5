//! Rows 33, 35 and 37: the hooks of the account.
ghost use Rattle.std.specs.Prelude.{◌≡◌};
ghost use Rattle.std.specs.Option.{option_copied};
ghost use Rattle.std.specs.FinMap as map;
ghost use Rattle.hk_calls.specs.Answers.{Gave, GaveUnless, changing};
ghost use Rattle.hk_calls.specs.Outputs.{settled};
ghost use Rattle.hk_state.specs.declared.key.Key.TheVariants as key;
ghost use Rattle.hk_api.specs.HostState.{with_chain};
ghost use Rattle.hk_api.specs.Hooks as rows;

use crate::Api;
use hk_api_parts::{is_skipped, named, override_of, skip, unskip};
use hk_base::{AccountId, Hash256};
use hk_calls::{
    Code, Pair, Refusal, hash_of, inside, name, read, refuse, write_or_number, write_out,
};
use hk_state::{Entry, Key};
use wa_num::Memory;
use xo_object::Parameter;

/// The number that stands for the hook itself.
const THIS_HOOK: u32 = 4_294_967_295;

impl Api<'_> {
    /// The hash of the hook at a position of an account.
    fn hash_at(&self, account: AccountId, position: u32) -> Option<Hash256>
        ensures { result ≡ rows.hash_at self.now.draft.entries account position }
    {
        if position > 255 {
            return None;
        }
        match self.found(&Key::Install(account, position as u8)) {
            Some(Entry::Install { hash, .. }) => Some(*hash),
            _ => None,
        }
    }

    fn hash_of_hook(&self, number: u32) -> Option<Hash256>
        ensures { result ≡ rows.hash_of_hook self.now number }
    {
        if number == THIS_HOOK {
            return Some(self.place.hash);
        }
        self.hash_at(self.place.account, number)
    }

    /// Row 33: writes the hash of the hook at a position of the account, or of the hook itself.
    pub(crate) fn hook_hash(
        &self,
        memory: &mut Memory,
        write: Pair,
        number: u32,
    ) -> Result<i64, Code>
        ensures { Gave memory.old memory.new result
            (settled memory.old write (rows.hook_hash self.now memory.old write number)) }
    {
        inside(memory, write)?;
        let hash = self.hash_of_hook(number).ok_or(Code::DoesntExist)?;
        write_out(memory, write, &hash.0)
    }

    /// The parameters of the hook's Install.
    fn own_parameters(&self) -> &[Parameter]
        ensures { result.now ≡ rows.parameters_of
            (map.get self.now.draft.entries (key.Install self.now.place.account self.now.place.position)) }
    {
        match self.found(&Key::Install(self.place.account, self.place.position)) {
            Some(Entry::Install { parameters, .. }) => parameters.as_slice(),
            _ => &[],
        }
    }

    /// The value that the hook is given for a name.
    fn parameter(&self, name: &[u8]) -> Option<&[u8]>
        ensures { option_copied result ≡ rows.parameter_of self.now name.now }
    {
        let overrides = self.chain.overrides.as_slice();
        if let Some(value) = override_of(overrides, &self.place.hash, name) {
            return Some(value);
        }
        match named(self.own_parameters(), name) {
            Some(parameter) => Some(parameter.value.as_slice()),
            None => None,
        }
    }

    /// Row 35: writes the value that the hook is given for a name.
    pub(crate) fn hook_param(
        &self,
        memory: &mut Memory,
        write: Pair,
        from: Pair,
    ) -> Result<i64, Code>
        ensures { Gave memory.old memory.new result
            (settled memory.old write (rows.hook_param self.now memory.old write from)) }
    {
        inside(memory, write)?;
        let bytes = read(memory, from)?;
        let name = name(bytes)?;
        let value = self.parameter(name).ok_or(Code::DoesntExist)?;
        write_or_number(memory, write, value)
    }

    /// Whether the hook at a position of the account has a hash.
    fn has_hash_at(&self, position: u32, hash: &Hash256) -> bool
        ensures { result ≡ rows.is_hook hash.now (rows.hash_at self.now.draft.entries self.now.place.account position) }
    {
        match self.hash_at(self.place.account, position) {
            Some(other) => other == *hash,
            None => false,
        }
    }

    /// Whether some hook of the account has a hash.
    #[tactic(auto, unfolding(crate::specs::Hooks::has_hook))]
    fn has_hook(&self, hash: &Hash256) -> bool
        ensures { result ≡ rows.has_hook self.now hash.now }
    {
        [0, 1, 2, 3, 4, 5, 6, 7, 8, 9]
            .iter()
            .any(|position| self.has_hash_at(*position, hash))
    }

    /// Row 37: skips the hooks of a hash from now on in this chain, or ends that.
    pub(crate) fn hook_skip(
        &mut self,
        memory: &Memory,
        from: Pair,
        flags: u32,
    ) -> Result<i64, Refusal>
        ensures { GaveUnless self.old self.new result
            (changing (with_chain self.old) (rows.hook_skip self.old memory.now from flags)) }
    {
        let bytes = read(memory, from)?;
        refuse(from.count != 32 || flags > 1, Code::InvalidArgument)?;
        let hash = hash_of(bytes);
        if flags == 0 {
            refuse(!self.has_hook(&hash), Code::DoesntExist)?;
            skip(&mut self.chain, hash)?;
        } else {
            refuse(
                !is_skipped(self.chain.skipped.as_slice(), &hash),
                Code::DoesntExist,
            )?;
            unskip(self.alloc, &mut self.chain, &hash);
        }
        Ok(1)
    }
}

//! The settings of a script, as far as they were read.

ghost use Rattle.std.specs.Prelude.{◌≡◌};
ghost use Rattle.cbt_script.specs.Causes.{Steps};
ghost use Rattle.cbt_script.specs.Settings.{no_settings, set_setting, set_atrs, set_expiry, set_tries, set_lapse, set_clock, none_from_tries};

use crate::cause::{Cause, LineFault};
use crate::fields::{end, number, require};
use crate::keywords::Setting;
use crate::limits::{MAX_ATRS, MAX_MS, MAX_STEP, MAX_TIME, MAX_TRIES};

/// The settings that were given.
#[derive(Drop)]
pub(crate) struct Settings {
    pub atrs: Option<u16>,
    pub expiry: Option<u64>,
    pub tries: Option<u32>,
    pub lapse: Option<u64>,
    pub line: Option<(u64, u64)>,
}

impl Settings {
    pub(crate) fn new() -> Settings
        ensures { result ≡ no_settings }
    {
        Settings {
            atrs: None,
            expiry: None,
            tries: None,
            lapse: None,
            line: None,
        }
    }

    /// Takes a setting, which is not there yet, as none of the later ones is.
    pub(crate) fn take(&mut self, setting: Setting, rest: &str) -> Result<(), LineFault>
        ensures { Steps result self.new (set_setting setting self.old rest.now) }
    {
        match setting {
            Setting::Atrs => self.take_atrs(rest),
            Setting::Expiry => self.take_expiry(rest),
            Setting::Tries => self.take_tries(rest),
            Setting::Lapse => self.take_lapse(rest),
            Setting::Clock => self.take_clock(rest),
        }
    }

    #[tactic(auto, unfolding(crate::specs::Settings::set_atrs))]
    fn take_atrs(&mut self, rest: &str) -> Result<(), LineFault>
        ensures { Steps result self.new (set_atrs self.old rest.now) }
    {
        require(self.atrs.is_none(), Cause::Twice)?;
        require(
            self.expiry.is_none() && self.has_none_from_tries(),
            Cause::Word,
        )?;
        let (atrs, rest) = number(rest, 1, MAX_ATRS)?;
        end(rest)?;
        self.atrs = Some(atrs as u16);
        Ok(())
    }

    #[tactic(auto, unfolding(crate::specs::Settings::set_expiry))]
    fn take_expiry(&mut self, rest: &str) -> Result<(), LineFault>
        ensures { Steps result self.new (set_expiry self.old rest.now) }
    {
        require(self.expiry.is_none(), Cause::Twice)?;
        require(self.has_none_from_tries(), Cause::Word)?;
        let (expiry, rest) = number(rest, 1, MAX_TIME)?;
        end(rest)?;
        self.expiry = Some(expiry);
        Ok(())
    }

    #[tactic(auto, unfolding(crate::specs::Settings::set_tries))]
    fn take_tries(&mut self, rest: &str) -> Result<(), LineFault>
        ensures { Steps result self.new (set_tries self.old rest.now) }
    {
        require(self.tries.is_none(), Cause::Twice)?;
        require(self.lapse.is_none() && self.line.is_none(), Cause::Word)?;
        let (tries, rest) = number(rest, 1, MAX_TRIES)?;
        end(rest)?;
        self.tries = Some(tries as u32);
        Ok(())
    }

    #[tactic(auto, unfolding(crate::specs::Settings::set_lapse))]
    fn take_lapse(&mut self, rest: &str) -> Result<(), LineFault>
        ensures { Steps result self.new (set_lapse self.old rest.now) }
    {
        require(self.lapse.is_none(), Cause::Twice)?;
        require(self.line.is_none(), Cause::Word)?;
        let (lapse, rest) = number(rest, 1, MAX_TIME)?;
        end(rest)?;
        self.lapse = Some(lapse);
        Ok(())
    }

    #[tactic(auto, unfolding(crate::specs::Settings::set_clock))]
    fn take_clock(&mut self, rest: &str) -> Result<(), LineFault>
        ensures { Steps result self.new (set_clock self.old rest.now) }
    {
        require(self.line.is_none(), Cause::Twice)?;
        let (start, rest) = number(rest, 0, MAX_MS)?;
        let (step, rest) = number(rest, 0, MAX_STEP)?;
        end(rest)?;
        self.line = Some((start, step));
        Ok(())
    }

    // Whether none of the tries and what stands behind them is there.
    fn has_none_from_tries(&self) -> bool
        ensures { result ≡ none_from_tries self.now }
    {
        self.tries.is_none() && self.lapse.is_none() && self.line.is_none()
    }
}

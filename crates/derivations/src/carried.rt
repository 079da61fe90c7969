ghost use Rattle.std.specs.Prelude.{◌≡◌, ◌<◌, ◌≤◌, ℕ, take, IfSome, IfNone, OnSome};
ghost use Rattle.explain.specs.declared.facts.Key.TheVariants as keys;
ghost use Rattle.explain.specs.Accounts.{Account};
ghost use Rattle.explain.specs.Checked.{AllHold};
ghost use Rattle.explain.specs.Facts.{HasOutput};
ghost use Rattle.explain.specs.Needs.{carried};
ghost use Rattle.derivations.specs.Contexts.{tape_in, world_of, StandsIn, IsReady, HasFrame, AreKnown, IsMissing};

use crate::places::Context;
use explain::Key;
use wa_base::End;

impl Context<'_> {
    // A key, where it stands in no fact.
    pub(crate) fn missing(self, key: Key) -> Option<Key>
        ensures none { IfNone result (StandsIn self.entry key) }
        ensures some { IfSome result (λ k. (k ≡ key) × (StandsIn self.entry key → ⊥)) }
    {
        match self.known.find(key) {
            Some(_) => None,
            None => Some(key),
        }
    }

    // How many channels an output of an end has in a quantum, where that is known.
    pub(crate) fn count(self, quantum: u64, end: End, output: u32) -> Option<u32>
        requires { IsReady self }
        ensures none { IfNone result (StandsIn self.entry (keys.Count quantum end output) → ⊥) }
        ensures stands { OnSome result (StandsIn self.entry (keys.Count quantum end output)) }
        ensures value { IfSome result (λ count. (a : Account) → AllHold self.entry.quantum (tape_in self.entry) a self.entry.known.now → a.counts quantum end ≡ count) }
        ensures few { IfSome result (λ count. count ≤ 32) }
    {
        let key = Key::Count {
            quantum,
            end,
            output,
        };
        let fact = self.known.find(key)?;
        Some(fact.value.unsigned_abs() as u32)
    }

    // The first channel of an output at a frame whose key stands in no fact, from one on before which
    // all stand.
    fn missing_channel(
        self,
        frame: u64,
        end: End,
        output: u32,
        first: u32,
        count: u32,
    ) -> Option<u32>
        requires { (c : ℕ) → c < first → StandsIn self (keys.Out frame end output c) }
        ensures none { IfNone result ((c : ℕ) → c < count → StandsIn self.entry (keys.Out frame end output c)) }
        ensures low { IfSome result (λ channel. channel < count) }
        ensures before { IfSome result (λ channel. (c : ℕ) → c < channel → StandsIn self.entry (keys.Out frame end output c)) }
        ensures absent { IfSome result (λ channel. StandsIn self.entry (keys.Out frame end output channel) → ⊥) }
    {
        for channel in first..count {
            let key = Key::Out {
                frame,
                end,
                output,
                channel,
            };
            match self.missing(key) {
                Some(_) => return Some(channel),
                None => {}
            }
        }
        None
    }
}

// The first key that is missing of what an output carries at a frame, where so many of them are known
// to stand: how many channels it has, and then each of them.
pub(crate) fn next_carried(
    context: Context<'_>,
    frame: u64,
    end: End,
    output: u32,
    item: &mut u64,
) -> Option<Key>
    requires ready { IsReady context }
    requires there { HasFrame context frame }
    requires output { HasOutput (world_of context frame) end output }
    requires before { AreKnown context (λ q tape a. take item.old (carried q tape a frame end output)) }
    ensures none { IfNone result (AreKnown context.entry (λ q tape a. carried q tape a frame end output)) }
    ensures some { IfSome result (IsMissing context.entry (λ q tape a. carried q tape a frame end output)) }
    ensures after { OnSome result (AreKnown context.entry (λ q tape a. take item.new (carried q tape a frame end output))) }
{
    let quantum = frame / u64::from(context.quantum);
    let Some(count) = context.count(quantum, end, output) else {
        return Some(Key::Count {
            quantum,
            end,
            output,
        });
    };
    let first = item.saturating_sub(1).min(u64::from(count)) as u32;
    let channel = context.missing_channel(frame, end, output, first, count)?;
    *item = u64::from(channel) + 1;
    Some(Key::Out {
        frame,
        end,
        output,
        channel,
    })
}

// Bodies as bytes: a tag for the kind, and what each kind has. A timer with a period has a tag of its own.
ghost use Rattle.ob_body.specs.Spelling.{BodyFits, EventFits, HostFits};
ghost use Rattle.ob_body.specs.Spelling as spelling;
ghost use Rattle.ob_body.specs.SpellingLaws.{body_codec, event_codec, host_codec};

use crate::body::Body;
use crate::event::Event;
use crate::host_object::HostObject;
use crate::mutex::Mutex;
use crate::semaphore::Semaphore;
use crate::timer::Timer;
use ob_codec::{Cursor, ReadFault, Spelled, TextFault};
use std::alloc::{AllocError, Global};

impl Spelled for Event {
    ghost spell = { spelling.event_text };

    ghost read_at = { spelling.event_at };

    ghost Fits = { EventFits };

    fn write(&self, out: &mut Vec<u8>) -> Result<(), AllocError> {
        self.manual.write(out)?;
        self.set.write(out)
    }

    fn read(alloc: Global, from: &mut Cursor<'_>) -> Result<Event, ReadFault> {
        let manual = bool::read(alloc, from)?;
        let set = bool::read(alloc, from)?;
        Ok(Event { manual, set })
    }

    ghost codec = { event_codec };
}

impl Spelled for HostObject {
    ghost spell = { spelling.host_text };

    ghost read_at = { spelling.host_at };

    ghost Fits = { HostFits };

    fn write(&self, out: &mut Vec<u8>) -> Result<(), AllocError> {
        u32::from(self.object_type).write(out)?;
        self.event.write(out)
    }

    fn read(alloc: Global, from: &mut Cursor<'_>) -> Result<HostObject, ReadFault> {
        let number = from.four()?;
        let event = Event::read(alloc, from)?;
        if number >= 256 {
            return Err(ReadFault::Text(TextFault::Value));
        }
        Ok(HostObject {
            object_type: number as u8,
            event,
        })
    }

    ghost codec = { host_codec };
}

impl Spelled for Body {
    ghost spell = { spelling.body_text };

    ghost read_at = { spelling.body_at };

    ghost Fits = { BodyFits };

    fn write(&self, out: &mut Vec<u8>) -> Result<(), AllocError> {
        match self {
            Body::Event(event) => {
                out.push(0)?;
                event.write(out)
            }
            Body::Mutex(mutex) => {
                out.push(1)?;
                mutex.write(out)
            }
            Body::Semaphore(semaphore) => {
                out.push(2)?;
                semaphore.write(out)
            }
            Body::Timer(timer) => {
                if timer.period() == 0 {
                    out.push(3)?;
                    return timer.write(out);
                }
                out.push(5)?;
                timer.write_periodic(out)
            }
            Body::Host(host) => {
                out.push(4)?;
                host.write(out)
            }
        }
    }

    #[tactic(auto, unfolding(crate::specs::Spelling::body_in))]
    fn read(alloc: Global, from: &mut Cursor<'_>) -> Result<Body, ReadFault> {
        match from.byte()? {
            0 => {
                let event = Event::read(alloc, from)?;
                Ok(Body::Event(event))
            }
            1 => {
                let mutex = Mutex::read(alloc, from)?;
                Ok(Body::Mutex(mutex))
            }
            2 => {
                let semaphore = Semaphore::read(alloc, from)?;
                Ok(Body::Semaphore(semaphore))
            }
            3 => {
                let timer = Timer::read(alloc, from)?;
                Ok(Body::Timer(timer))
            }
            4 => {
                let host = HostObject::read(alloc, from)?;
                Ok(Body::Host(host))
            }
            5 => {
                let timer = Timer::read_periodic(alloc, from)?;
                Ok(Body::Timer(timer))
            }
            _ => Err(ReadFault::Text(TextFault::Tag)),
        }
    }

    ghost codec = { body_codec };
}

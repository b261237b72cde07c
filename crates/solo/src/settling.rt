// The host as settling needs it.
ghost use Rattle.solo.specs.Views.{calls_of, state_of, told, volume};

use crate::solo::Solo;
use settle::{Lone, LoneNo};
use share_plans::{Place, Shared};
use shared_disk::Device;
use vol_base::{FileNo, PlainReply};
use vol_layout::Geometry;

impl<D: Device> Lone for Solo<D> {
    ghost volume = { λ s. volume s };

    ghost told = { λ s. told s };

    ghost began = { λ s. s.began };

    ghost counter = { λ s. (state_of s).counter };

    ghost answered = { λ s. calls_of s };

    ghost stopped = { λ s. s.stopped };

    fn geometry(&self) -> Geometry {
        *Solo::geometry(self)
    }

    fn read(&mut self, file: FileNo, index: u32) -> Result<PlainReply, LoneNo> {
        Solo::read(self, file, index)
    }

    fn compare_share(&mut self, file: FileNo, index: u32, source: Place) -> Result<Shared, LoneNo> {
        let answer = Solo::compare_share(self, file, index, source);
        let _valid = Solo::geometry(self);
        answer
    }
}

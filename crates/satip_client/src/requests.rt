//! The requests of a client, in the order in which it sends them.

ghost use Rattle.std.specs.Prelude.{◌≡◌, ◌<◌};
ghost use Rattle.satip_client.specs.Requests.{options_request, play_request, setup_request, teardown_request};

use crate::lease::Lease;
use crate::page::Page;

impl<'a> Page<'a> {
    /// Writes the request that sets up a stream by the query (RFC 2326, section 10.4). Its
    /// datagrams go to `port`, and its number is 1.
    #[tactic(auto, unfolding(crate::specs::Requests::setup_request), using(crate::proofs::LineLemmas::line_room))]
    pub fn write_setup(&mut self, port: u16)
        requires next { port < 65535 }
        ensures request { self.new.text
            ≡ setup_request self.old.address self.old.query port }
        ensures address { self.new.address ≡ self.old.address }
    {
        let address = self.address();
        let query = self.query();
        self.clear();
        self.write(b"SETUP rtsp://");
        self.write(address);
        self.write(b"/?");
        self.write(query);
        self.write(b" RTSP/1.0\r\nCSeq: 1\r\nTransport: RTP/AVP;unicast;client_port=");
        self.write_number(port as u64);
        self.write(b"-");
        self.write_number(port as u64 + 1);
        self.write(b"\r\n\r\n");
    }

    /// Writes the request that lets the stream play (RFC 2326, section 10.5). Its number is 2.
    #[tactic(auto, unfolding(crate::specs::Requests::play_request), using(crate::proofs::LineLemmas::line_room))]
    pub fn write_play(&mut self, lease: &Lease)
        ensures request { self.new.text
            ≡ play_request self.old.address lease.now.stream lease.now.session }
        ensures address { self.new.address ≡ self.old.address }
    {
        let address = self.address();
        self.clear();
        self.write(b"PLAY rtsp://");
        self.write(address);
        self.write(b"/stream=");
        self.write_number(lease.stream() as u64);
        self.write(b" RTSP/1.0\r\nCSeq: 2\r\nSession: ");
        self.write(lease.session());
        self.write(b"\r\n\r\n");
    }

    /// Writes the request that keeps the session alive (RFC 2326, section 10.1).
    #[tactic(auto, unfolding(crate::specs::Requests::options_request), using(crate::proofs::LineLemmas::line_room))]
    pub fn write_options(&mut self, lease: &Lease, cseq: u32)
        ensures request { self.new.text
            ≡ options_request self.old.address cseq lease.now.session }
        ensures address { self.new.address ≡ self.old.address }
    {
        let address = self.address();
        self.clear();
        self.write(b"OPTIONS rtsp://");
        self.write(address);
        self.write(b"/ RTSP/1.0\r\nCSeq: ");
        self.write_number(cseq as u64);
        self.write(b"\r\nSession: ");
        self.write(lease.session());
        self.write(b"\r\n\r\n");
    }

    /// Writes the request that gives the stream back (RFC 2326, section 10.7).
    #[tactic(auto, unfolding(crate::specs::Requests::teardown_request), using(crate::proofs::LineLemmas::line_room))]
    pub fn write_teardown(&mut self, lease: &Lease, cseq: u32)
        ensures request { self.new.text
            ≡ teardown_request self.old.address lease.now.stream cseq lease.now.session }
        ensures address { self.new.address ≡ self.old.address }
    {
        let address = self.address();
        self.clear();
        self.write(b"TEARDOWN rtsp://");
        self.write(address);
        self.write(b"/stream=");
        self.write_number(lease.stream() as u64);
        self.write(b" RTSP/1.0\r\nCSeq: ");
        self.write_number(cseq as u64);
        self.write(b"\r\nSession: ");
        self.write(lease.session());
        self.write(b"\r\n\r\n");
    }
}

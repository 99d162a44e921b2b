// What is told and handed out of replies: `shop_replies`.
use crate::commands::answer::Answer;
use a2_device::Order;
use a2_image::ImageError;
use disk_container::Shell;
use shop_replies::{Refusal, Reply, most_bytes, open_disk, unwrap_reply, written};
use std::test::Fail;

#[test]
fn a_made_image_is_handed_out(rt: HostRuntime) -> Result<(), Fail> {
    let image = vec![in rt.alloc(); 7; 3]?;
    let answer = Answer::of(rt.alloc(), Reply::made(image));
    assert!(rt; answer.status == 0 && answer.text.as_slice() == b"OK\n".as_slice());
    assert!(rt; answer.out.as_slice() == [7, 7, 7].as_slice());
    Ok(())
}

#[test]
fn a_report_hands_its_certificate_on(rt: HostRuntime) -> Result<(), Fail> {
    let line = "a line\n".to_string(rt.alloc())?;
    let certificate = Vec::from_slice(rt.alloc(), b"A2CERT 1\n")?;
    let reply = Reply::optimized(line, certificate, vec![in rt.alloc(); 7; 3]?);
    let Some(handed) = reply.certificate() else {
        return Err("no certificate".into());
    };
    assert!(rt; handed == b"A2CERT 1\n".as_slice());
    let answer = Answer::of(rt.alloc(), reply);
    assert!(rt; answer.status == 0 && answer.text.as_slice() == b"a line\nA2CERT 1\n".as_slice());
    assert!(rt; answer.out.as_slice() == [7, 7, 7].as_slice());
    Ok(())
}

#[test]
fn an_image_is_handed_out_in_its_shell(rt: HostRuntime) -> Result<(), Fail> {
    let shell = Shell {
        front: Vec::from_slice(rt.alloc(), b"<")?,
        back: Vec::from_slice(rt.alloc(), b">>")?,
    };
    let reply = Reply::made(vec![in rt.alloc(); 7; 3]?);
    let answer = Answer::of(rt.alloc(), reply.in_shell(rt.alloc(), &shell));
    assert!(rt; answer.status == 0 && answer.text.as_slice() == b"OK\n".as_slice());
    assert!(rt; answer.out.as_slice() == [b'<', 7, 7, 7, b'>', b'>'].as_slice());
    let told = Reply::refused(Refusal::Protected).in_shell(rt.alloc(), &shell);
    let answer = Answer::of(rt.alloc(), told);
    assert!(rt; answer.status == 3 && answer.text.as_slice() == b"REFUSED Protected\n".as_slice());
    assert!(rt; answer.out.is_empty());
    Ok(())
}

#[test]
fn a_file_that_is_no_container_is_told(rt: HostRuntime) -> Result<(), Fail> {
    let answer = Answer::of(rt.alloc(), unwrap_reply(vec![in rt.alloc(); 0; 143_360]?));
    assert!(rt;
        answer.status == 3 && answer.text.as_slice() == b"REFUSED Container Magic\n".as_slice()
    );
    Ok(())
}

#[test]
fn a_refusal_is_told(rt: HostRuntime) {
    let mut text = Vec::new(rt.alloc());
    assert_eq!(rt; Reply::from(ImageError::NoSector).tell(&mut text), 3);
    assert!(rt; text.as_slice() == b"REFUSED NoSector\n".as_slice());
}

#[test]
fn bytes_are_written(rt: HostRuntime) {
    let mut text = Vec::new(rt.alloc());
    assert_eq!(rt; written(b"a text", 2, &mut text), 2);
    assert!(rt; text.as_slice() == b"a text".as_slice());
}

#[test]
fn a_disk_has_the_length_of_its_order(rt: HostRuntime) -> Result<(), Fail> {
    assert_eq!(rt; most_bytes(Order::Prodos), 33_553_920);
    let disk = open_disk(vec![in rt.alloc(); 0; 143_360]?, Order::Prodos);
    assert!(rt; matches!(&disk, Ok(_)));
    let blocks = open_disk(vec![in rt.alloc(); 0; 143_872]?, Order::Prodos);
    assert!(rt; matches!(&blocks, Err(ImageError::Length)));
    Ok(())
}

// What always holds of jobs on containers.
ghost use Rattle.std.specs.Prelude.{ℕ, List};
ghost use Rattle.disk_container.specs.declared.container.Container.{Container};
ghost use Rattle.disk_container.specs.Container.{IsContainer};
ghost use Rattle.shop_jobs.specs.Job.{JobView};
ghost use Rattle.shop_replies.specs.declared.reply.Reply.{Reply};
ghost use Rattle.shop_replies.specs.Reply.{IsMade, made_of};
ghost use Rattle.shop_commands.specs.Answer.{AreOfContainer, ChangesVolume, IsReplyToPayload, Parts};

/// A container whose image is changed is a container that says the same.
pub fn a_changed_container_is_one()
    ensures { (job : JobView) (parts : Parts) (extra : List ℕ) (reply : Reply) (container : Container)
        → AreOfContainer parts container → ChangesVolume job.ask → IsReplyToPayload job parts extra reply
        → IsMade reply → IsContainer (made_of reply) container }
{}
